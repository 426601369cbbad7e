// Runs of an engine.

#[cfg(test)]
mod tests {
    use crate::plans::bank_of_two;
    use engine::{Engine, Report};
    use std::test::Fail;
    use stream::Refusal;
    use table::Sporadic;
    use turns::{Counts, End, LAST_MOMENT, Settled};

    fn started(moment: u64) -> Result<Engine<Sporadic>, Fail> {
        Ok(Engine::start(bank_of_two()?, moment))
    }

    fn turn(engine: &mut Engine<Sporadic>, done: bool) -> Result<Settled, Refusal> {
        let slip = engine.pick();
        engine.settle(slip, done)
    }

    #[test]
    fn an_overrun_and_its_end(rt: HostRuntime) -> Result<(), Fail> {
        let mut engine = started(0)?;
        engine.release(1)?;
        engine.release(2)?;
        assert_eq!(rt; engine.release(2), Err(Refusal::NotOpen));
        assert_eq!(rt; engine.calm(), Err(Refusal::AlreadyNormal));
        assert_eq!(rt; turn(&mut engine, false)?, Settled::Ran(1, End::Going));
        assert_eq!(rt; turn(&mut engine, false)?, Settled::Ran(1, End::Switch));
        assert_eq!(rt; engine.release(2), Err(Refusal::BackgroundInOverrun));
        assert_eq!(rt; engine.release(3), Err(Refusal::NoSuchStream));
        assert_eq!(rt; engine.calm(), Err(Refusal::JobWaits));
        assert_eq!(rt; turn(&mut engine, false)?, Settled::Ran(1, End::Going));
        assert_eq!(rt; turn(&mut engine, true)?, Settled::Ran(1, End::Finished));
        engine.calm()?;
        assert_eq!(rt; turn(&mut engine, false)?, Settled::Idle);
        assert_eq!(rt; engine.moment(), 5);
        let report = engine.report();
        assert_eq!(rt;
            report.counts,
            Counts {
                accepted: 2,
                finished: 1,
                cut: 0,
                dropped: 1,
                waiting: 0,
            }
        );
        assert_eq!(rt; report.letter, 'S');
        Ok(())
    }

    #[test]
    fn a_job_that_is_cut(rt: HostRuntime) -> Result<(), Fail> {
        let mut engine = started(0)?;
        engine.release(2)?;
        assert_eq!(rt; turn(&mut engine, false)?, Settled::Ran(2, End::Going));
        assert_eq!(rt; turn(&mut engine, false)?, Settled::Ran(2, End::Going));
        assert_eq!(rt; turn(&mut engine, false)?, Settled::Ran(2, End::Cut));
        assert_eq!(rt; engine.report().counts.cut, 1);
        Ok(())
    }

    // Finished on the last unit of its normal budget, a critical job begins no overrun.
    #[test]
    fn done_in_time(rt: HostRuntime) -> Result<(), Fail> {
        let mut engine = started(0)?;
        engine.release(1)?;
        assert_eq!(rt; turn(&mut engine, false)?, Settled::Ran(1, End::Going));
        assert_eq!(rt; turn(&mut engine, true)?, Settled::Ran(1, End::Finished));
        assert_eq!(rt; engine.calm(), Err(Refusal::AlreadyNormal));
        Ok(())
    }

    // Deadlines past 32 bits: 4,294,967,296 goes before 4,294,967,300.
    #[test]
    fn the_nearer_deadline_first(rt: HostRuntime) -> Result<(), Fail> {
        let mut engine = started(4294967294)?;
        engine.release(2)?;
        engine.release(1)?;
        assert_eq!(rt; turn(&mut engine, true)?, Settled::Ran(1, End::Finished));
        Ok(())
    }

    #[test]
    fn the_last_moment(rt: HostRuntime) -> Result<(), Fail> {
        let mut engine = started(LAST_MOMENT)?;
        engine.release(1)?;
        let slip = engine.pick();
        let void = slip.refusal();
        let settled = engine.settle(slip, true);
        assert_eq!(rt; void, Some(Refusal::LastMoment));
        assert_eq!(rt; settled, Err(Refusal::NoTurnToSettle));
        let Report { counts, bank, .. } = engine.report();
        assert_eq!(rt; counts.waiting, 1);
        let mut late = Engine::start(bank, LAST_MOMENT + 1);
        assert_eq!(rt; late.release(1), Err(Refusal::Shut));
        assert_eq!(rt; late.calm(), Err(Refusal::Shut));
        assert_eq!(rt; late.verdict(), Err(Refusal::MomentTooLate));
        Ok(())
    }

    // The engine's own record says whose turn it is, whichever slip is settled.
    #[test]
    fn slips_of_two_engines(rt: HostRuntime) -> Result<(), Fail> {
        let mut one = started(0)?;
        let mut other = started(0)?;
        let first = one.release(1);
        let second = other.release(2);
        let slip = one.pick();
        let foreign = other.pick();
        let out = one.release(2);
        let again = one.pick();
        let void = again.refusal();
        let unsettled = one.settle(again, true);
        let ran = one.settle(foreign, true);
        let none = one.settle(slip, true);
        assert_eq!(rt; first, Ok(()));
        assert_eq!(rt; second, Ok(()));
        assert_eq!(rt; out, Err(Refusal::TurnOut));
        assert_eq!(rt; void, Some(Refusal::TurnOut));
        assert_eq!(rt; unsettled, Err(Refusal::NoTurnToSettle));
        assert_eq!(rt; ran, Ok(Settled::Ran(1, End::Finished)));
        assert_eq!(rt; none, Err(Refusal::NoTurnToSettle));
        Ok(())
    }
}

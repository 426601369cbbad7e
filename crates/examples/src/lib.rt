// Worked examples, run.

#![tactic(auto)]

mod answers;
#[cfg(test)]
mod plans;
#[cfg(test)]
mod ranks;
mod runs;

#[cfg(test)]
mod tests {
    use crate::plans::bank_of_two;
    use bank::{Bank, most_accepted};
    use demand::{admit, demand_at, load, sporadic_share};
    use join::Joined;
    use plan::{Tables, open_plan, tell};
    use script::{Unwritten, check, replay, replayed};
    use std::alloc::Global;
    use std::process::Abort;
    use std::test::Fail;
    use stream::{Fault, Layer, MOST_STREAMS, Phase, Point, Record, Refusal};
    use table::{Raster, Shortfall, Sporadic};
    use text::{Answer, Reader};
    use worked::{LOCK, PREVIEW};

    #[test]
    fn demands_at_each_length(rt: HostRuntime) -> Result<(), Fail> {
        let bank = bank_of_two()?;
        let normal = [0u64, 0, 2, 2, 2, 2, 5];
        let overrun = [0u64, 0, 0, 0, 2, 3, 4];
        for (phase, demands) in [(Phase::Normal, normal), (Phase::Overrun, overrun)] {
            for (length, demand) in (0..).zip(demands) {
                assert_eq!(rt; demand_at(&bank, phase, length), Some(demand));
            }
        }
        assert_eq!(rt; demand_at(&bank, Phase::Normal, 1000001), None);
        Ok(())
    }

    // Only the lock is critical, so its shares are the overrun demand.
    #[test]
    fn shares_at_each_length(rt: HostRuntime) -> Result<(), Fail> {
        let lock = Record::new(LOCK)?;
        let shares = [0u64, 0, 0, 0, 2, 3, 4];
        for (length, share) in (0..).zip(shares) {
            assert_eq!(rt; sporadic_share(lock, length), Some(share));
        }
        assert_eq!(rt; sporadic_share(lock, 1000001), None);
        Ok(())
    }

    #[test]
    fn the_nearest_point_of_an_accepted_bank(rt: HostRuntime) -> Result<(), Fail> {
        let verdict = admit(&bank_of_two()?)?;
        assert_eq!(rt; (verdict.horizon, verdict.lengths), (6, 7));
        assert_eq!(rt;
            verdict.point,
            Point {
                phase: Phase::Normal,
                length: 2,
                margin: 0,
            }
        );
        Ok(())
    }

    fn all_replay(rt: &impl Abort, heap: Global, cases: &[(&str, &str)]) -> Result<(), Fail> {
        for (text, answer) in cases {
            let written = replayed(heap, text.as_bytes())?;
            assert_eq!(rt; str::from_utf8(&written), Ok(*answer), "{}", text);
        }
        Ok(())
    }

    #[test]
    fn answers_to_plans(rt: HostRuntime) -> Result<(), Fail> {
        let cases = [
            (
                "(S H (2 4) (2 6) 6)\n(S L (3 0) (6 6) 6)\n(go 0)\n",
                "(accepted 6 7 (normal 2 0))\n(total 0 0 0 0 0)\n",
            ),
            (
                "(S H (2 4) (2 6) 6)\n(S L (4 0) (6 6) 6)\n(go 0)\n",
                "(accepted 6 7 (normal 2 0))\n(total 0 0 0 0 0)\n",
            ),
            (
                "(S H (2 4) (2 6) 6)\n(S L (5 0) (6 6) 6)\n(go 0)\n",
                "(refused 11 D (3 0) (normal 6 -1))\n",
            ),
            (
                "(S H (2 6) (2 6) 6)\n(S L (3 0) (6 6) 6)\n(go 0)\n",
                "(accepted 6 7 (normal 2 0))\n(total 0 0 0 0 0)\n",
            ),
            (
                "(S H (2 6) (3 6) 6)\n(S L (3 0) (6 6) 6)\n(go 0)\n",
                "(refused 11 D (3 0) (overrun 3 -1))\n",
            ),
            (
                "(S H (2 4) (6 6) 6)\n(S L (3 0) (6 6) 6)\n(go 0)\n",
                "(refused 11 D (3 0) (overrun 0 -2))\n",
            ),
            (
                "(S L (1 0) (999 999) 999)\n(S L (1 0) (1000 1000) 1000)\n(go 0)\n",
                "(accepted 999000 999001 (normal 1 1))\n(total 0 0 0 0 0)\n",
            ),
            (
                "(S L (1 0) (1000 1000) 1000)\n(S L (1 0) (1001 1001) 1001)\n(go 0)\n",
                "(refused 10 D (3 0))\n",
            ),
            ("(go 0)\n", "(refused 9 D (1 0))\n"),
            (
                "(S H (2 4) (2 6) 6)\n(R L (3 0) (6 6) 6 5)\n(go 0)\n",
                "(accepted 6 7 (normal 2 0))\n(total 0 0 0 0 0)\n",
            ),
            (
                "(R H (2 4) (2 6) 6 0)\n(S L (3 0) (6 6) 6)\n(go 0)\n",
                "(refused 3 P (2 0))\n",
            ),
            ("(R H (2 4) (2 6) 6 6)\n(go 0)\n", "(refused 8 P (1 0))\n"),
            ("(R H (2 4) (7 6) 6 6)\n(go 0)\n", "(refused 7 P (1 0))\n"),
            ("(R H (2 4) (2 6) 6)\n(go 0)\n", "(refused 1 T (1 19))\n"),
            (
                "(S L (1 0) (2 2) 2)\n(go 1000000000000)\n",
                "(accepted 2 3 (normal 1 1))\n(total 0 0 0 0 0)\n",
            ),
            (
                "(S L (1 0) (2 2) 2)\n(go 1000000000001)\n",
                "(refused 12 E (2 0))\n",
            ),
        ];
        all_replay(&rt, rt.alloc(), &cases)
    }

    #[test]
    fn places_of_faults(rt: HostRuntime) -> Result<(), Fail> {
        let cases = [
            ("", "(refused 1 T (1 1))\n"),
            ("(S L (1 0) (2 2) 2)", "(refused 1 T (1 20))\n"),
            ("(S L (1 0) (2 2) 2)\n", "(refused 1 T (2 1))\n"),
            ("(X L (1 0) (2 2) 2)\n", "(refused 1 T (1 2))\n"),
            ("(S X (1 0) (2 2) 2)\n", "(refused 1 T (1 4))\n"),
            ("(S L  (1 0) (2 2) 2)\n", "(refused 1 T (1 6))\n"),
            ("(S L (01 0) (2 2) 2)\n", "(refused 1 T (1 8))\n"),
            ("(go 12345678901234)\n", "(refused 1 T (1 18))\n"),
            ("(S L (1 0) (2 2) 0)\n(go 0)\n", "(refused 4 P (1 0))\n"),
            ("(S L (1 0) (2 2) 65536)\n(go 0)\n", "(refused 4 P (1 0))\n"),
            ("(S L (1 0) (3 3) 2)\n(go 0)\n", "(refused 5 P (1 0))\n"),
            ("(S L (3 0) (2 2) 2)\n(go 0)\n", "(refused 6 P (1 0))\n"),
            ("(S H (2 1) (2 2) 2)\n(go 0)\n", "(refused 6 P (1 0))\n"),
            ("(S L (1 0) (1 2) 2)\n(go 0)\n", "(refused 7 P (1 0))\n"),
            (
                "(S L (1 0) (2 2) 2)\n(go 0)\n ",
                "(accepted 2 3 (normal 1 1))\n(refused 1 T (3 1))\n",
            ),
        ];
        all_replay(&rt, rt.alloc(), &cases)
    }

    // What a server in C is told of a plan.
    #[test]
    fn numbers_for_c(rt: HostRuntime) {
        let cases = [
            ("(S H (2 4) (2 6) 6)\n(S L (4 0) (6 6) 6)\n", 0i64),
            ("(S H (2 4) (2 6) 6)\n(S L (5 0) (6 6) 6)\n", 11),
            (
                "(S L (1 0) (1000 1000) 1000)\n(S L (1 0) (1001 1001) 1001)\n",
                10,
            ),
            ("", 9),
            ("(R H (2 4) (2 6) 6 6)\n", 8),
            ("(S L (1 0) (2 2) 0)\n", 4),
            ("(S L (1 0) (2 2) 2)\n(go 0)\n", 1),
        ];
        for (text, number) in cases {
            assert_eq!(rt; check(text.as_bytes()), number, "{}", text);
        }
    }

    // The 33rd stream is refused before its kind and its numbers are looked at, and its kind before its numbers.
    #[test]
    fn the_first_fault_of_a_line(rt: HostRuntime) -> Result<(), Fail> {
        let mut full = String::new(rt.alloc());
        for _ in 0..MOST_STREAMS {
            full.push_str("(R L (1 0) (64 64) 64 0)\n")?;
        }
        for last in [
            "(S L (1 0) (2 2) 2)\n",
            "(R L (1 0) (2 2) 0 0)\n",
            "(S L (1 0) (2 2) 0)\n",
        ] {
            let text = format!(in rt.alloc(); "{full}{last}(go 0)\n")?;
            let written = replayed(rt.alloc(), text.as_bytes())?;
            assert_eq!(rt; str::from_utf8(&written), Ok("(refused 2 P (33 0))\n"));
        }
        let text = "(R L (1 0) (2 2) 2 0)\n(S L (1 0) (2 2) 0)\n(go 0)\n";
        let written = replayed(rt.alloc(), text.as_bytes())?;
        assert_eq!(rt; str::from_utf8(&written), Ok("(refused 3 P (2 0))\n"));
        Ok(())
    }

    #[test]
    fn scripts(rt: HostRuntime) -> Result<(), Fail> {
        let cases = [
            (
                "(S H (2 4) (2 6) 6)\n(S L (3 0) (6 6) 6)\n(go 0)\n(release 1)\n(release 2)\n(turn no)\n(turn no)\n(release 2)\n(turn no)\n(turn yes)\n(calm)\n",
                "(accepted 6 7 (normal 2 0))\n(took 1)\n(took 2)\n(ran 1 going)\n(ran 1 switch)\n(refused 16 E (8 0))\n(ran 1 going)\n(ran 1 finished)\n(calm 4)\n(total 2 1 0 1 0)\n",
            ),
            (
                "(S L (1 0) (2 2) 2)\n(go 1000000000000)\n(release 1)\n(turn yes)\n(release 2)\n(calm)\n",
                "(accepted 2 3 (normal 1 1))\n(took 1)\n(refused 24 E (4 0))\n(refused 14 E (5 0))\n(refused 20 E (6 0))\n(total 1 0 0 0 1)\n",
            ),
            (
                "(S L (1 0) (2 2) 2)\n(go 0)\n(turn yes)\n(release 1)\n(turn no)\n(turn maybe)\n(turn no)\n",
                "(accepted 2 3 (normal 1 1))\n(ran 0 idle)\n(took 1)\n(ran 1 cut)\n(refused 1 T (6 7))\n",
            ),
        ];
        all_replay(&rt, rt.alloc(), &cases)
    }

    // A text of 65,536 bytes is answered, and with a byte more it is not.
    #[test]
    fn the_longest_text(rt: HostRuntime) -> Result<(), Fail> {
        let mut text = String::new(rt.alloc());
        text.push_str("(S L (1 0) (2 2) 2)\n(go 0)\n")?;
        for _ in 0..6541 {
            text.push_str("(turn no)\n")?;
        }
        for _ in 0..9 {
            text.push_str("(turn yes)\n")?;
        }
        let answers = replayed(rt.alloc(), text.as_bytes())?;
        assert_eq!(rt; text.len(), 65536);
        assert!(rt; answers.starts_with(b"(accepted 2 3 (normal 1 1))\n(ran 0 idle)\n"));
        assert!(rt; answers.ends_with(b"(ran 0 idle)\n(total 0 0 0 0 0)\n"));
        text.push_str("\n")?;
        assert!(rt; replayed(rt.alloc(), text.as_bytes())?.is_empty());
        Ok(())
    }

    // What is told of a buffer of sevens with so much room, and the buffer then.
    fn in_room(
        heap: Global,
        text: &[u8],
        room: usize,
    ) -> Result<(Result<usize, Unwritten>, Vec<u8>), Fail> {
        let mut buffer = Vec::from_elem(heap, 7u8, room)?;
        let told = replay(text, &mut buffer);
        Ok((told, buffer))
    }

    // Only the front of a buffer is written.
    #[test]
    fn answers_in_a_buffer(rt: HostRuntime) -> Result<(), Fail> {
        let text = "(S L (1 0) (2 2) 2)\n(go 0)\n(turn yes)\n".as_bytes();
        let answers = "(accepted 2 3 (normal 1 1))\n(ran 0 idle)\n(total 0 0 0 0 0)\n".as_bytes();
        let (told, buffer) = in_room(rt.alloc(), text, 400)?;
        assert_eq!(rt; told, Ok(answers.len()));
        assert!(rt; buffer.starts_with(answers));
        assert!(rt; buffer.iter().skip(answers.len()).all(|byte| *byte == 7));
        Ok(())
    }

    // A text that is too long is told before a buffer that is too short, and nothing is written.
    #[test]
    fn no_answers_in_a_buffer(rt: HostRuntime) -> Result<(), Fail> {
        let text = "(S L (1 0) (2 2) 2)\n(go 0)\n(turn yes)\n".as_bytes();
        let newlines = Vec::from_elem(rt.alloc(), b'\n', 65537)?;
        let (short, kept) = in_room(rt.alloc(), text, 399)?;
        assert_eq!(rt; short, Err(Unwritten::BufferTooShort));
        assert!(rt; kept.iter().all(|byte| *byte == 7));
        let (long, kept) = in_room(rt.alloc(), &newlines, 399)?;
        assert_eq!(rt; long, Err(Unwritten::TextTooLong));
        assert!(rt; kept.iter().all(|byte| *byte == 7));
        Ok(())
    }

    #[test]
    fn a_plan_is_opened_and_told(rt: HostRuntime) -> Result<(), Fail> {
        let mut reader = Reader::new(b"(S L (1 0) (2 2) 2)\n(go 0)\n");
        let verdict = open_plan(&mut reader, Tables::new())?.verdict;
        let mut buffer = [b'-'; 40];
        let written = tell(Answer::Accepted(verdict), &mut buffer, 2);
        assert_eq!(rt; (written, tell(Answer::Calm(7), &mut buffer, 33)), (30, 33));
        assert_eq!(rt;
            str::from_utf8(&buffer),
            Ok("--(accepted 2 3 (normal 1 1))\n----------")
        );
        Ok(())
    }

    #[test]
    fn a_gap_between_releases(rt: HostRuntime) -> Result<(), Fail> {
        let mut bank = bank_of_two()?;
        bank.begin(0);
        assert_eq!(rt; bank.accept(1), Ok(()));
        for _ in 0..5 {
            bank.tick();
        }
        assert_eq!(rt; bank.accept(1), Err(Refusal::NotOpen));
        bank.tick();
        assert_eq!(rt; bank.accept(1), Ok(()));
        assert_eq!(rt; bank.accept(0), Err(Refusal::NoSuchStream));
        assert_eq!(rt; bank.accept(3), Err(Refusal::NoSuchStream));
        assert_eq!(rt; most_accepted(&bank, 1, 13), Some(3));
        Ok(())
    }

    #[test]
    fn where_a_bank_is_asked(rt: HostRuntime) -> Result<(), Fail> {
        let bank = bank_of_two()?;
        let cases = [
            (-65536i64, None),
            (-65535, Some(0u64)),
            (-1, Some(0)),
            (0, Some(1)),
            (6, Some(2)),
            (1000000, Some(166667)),
            (1000001, None),
        ];
        for (m, told) in cases {
            assert_eq!(rt; bank.ceiling(2, m), told);
            assert_eq!(rt; bank.opening(2, m), told);
            assert_eq!(rt; bank.ceiling(3, m), None);
        }
        assert_eq!(rt; bank.record_of(2).map(|record| record.row()), Some(PREVIEW));
        assert_eq!(rt; bank.count(2), Some(1));
        for absent in [0, 3, 33, 34] {
            assert!(rt; bank.record_of(absent).is_none());
            assert_eq!(rt; bank.count(absent), None);
        }
        Ok(())
    }

    #[test]
    fn the_thirty_third_stream(rt: HostRuntime) -> Result<(), Fail> {
        let mut bank = full_table()?;
        assert_eq!(rt;
            bank.grow(Record::new(PREVIEW)?),
            Err(Refusal::TooManyStreams)
        );
        assert_eq!(rt; bank.streams(), 32);
        Ok(())
    }

    #[test]
    fn a_raster_opens_at_its_phase(rt: HostRuntime) -> Result<(), Fail> {
        let mut bank = Raster::new();
        assert_eq!(rt;
            bank.grow(Record::new(LOCK)?, 6),
            Err(Refusal::PhaseOutOfLimits)
        );
        bank.grow(Record::new(LOCK)?, 2)?;
        bank.begin(4294967296);
        for _ in 0..4 {
            assert_eq!(rt; bank.accept(1), Err(Refusal::NotOpen));
            bank.tick();
        }
        assert_eq!(rt; bank.accept(1), Ok(()));
        assert_eq!(rt; bank.opening(1, 5), Some(0));
        assert_eq!(rt; bank.opening(1, 6), Some(1));
        Ok(())
    }

    fn full_table() -> Result<Sporadic, Fail> {
        let mut bank = Sporadic::new();
        for _ in 0..MOST_STREAMS {
            bank.grow(Record::new(PREVIEW)?)?;
        }
        Ok(bank)
    }

    #[test]
    fn joins_end_at_33_streams(rt: HostRuntime) -> Result<(), Fail> {
        let two = Joined::new(full_table()?, full_table()?);
        let mut bank = Joined::new(two, full_table()?);
        bank.begin(0);
        assert_eq!(rt; bank.streams(), 33);
        assert_eq!(rt; bank.accept(0), Err(Refusal::NoSuchStream));
        assert_eq!(rt; bank.accept(33), Ok(()));
        assert_eq!(rt; bank.accept(33), Err(Refusal::NotOpen));
        assert_eq!(rt; bank.accept(34), Err(Refusal::NoSuchStream));
        assert_eq!(rt;
            bank.record_of(33).map(|record| record.row()),
            Some(PREVIEW)
        );
        assert_eq!(rt; bank.count(33), Some(1));
        for absent in [0, 34] {
            assert!(rt; bank.record_of(absent).is_none());
            assert_eq!(rt; bank.count(absent), None);
        }
        bank.tick();
        assert_eq!(rt; bank.opening(33, 5), Some(1));
        assert_eq!(rt; bank.opening(32, 5), Some(1));
        assert_eq!(rt; bank.opening(34, 5), None);
        let cases = [
            (-65536i64, None, None),
            (-65535, Some(0u64), Some(0u64)),
            (-1, Some(0), Some(0)),
            (0, Some(1), Some(0)),
            (1000000, Some(166667), Some(166666)),
            (1000001, None, None),
        ];
        for (m, ceiling, opening) in cases {
            assert_eq!(rt; bank.ceiling(33, m), ceiling);
            assert_eq!(rt; bank.opening(33, m), opening);
            for absent in [0, 34] {
                assert_eq!(rt; bank.ceiling(absent, m), None);
                assert_eq!(rt; bank.opening(absent, m), None);
            }
        }
        Ok(())
    }

    fn short_of(bank: &Sporadic, stream: u64) -> u64 {
        bank.record_of(stream)
            .map_or(0, |record| record.row().short)
    }

    #[test]
    fn shorter_short_deadlines(rt: HostRuntime) -> Result<(), Fail> {
        let mut bank = bank_of_two()?;
        assert_eq!(rt; bank.shorten(0), Err(Shortfall::Factor));
        assert_eq!(rt; bank.shorten(1001), Err(Shortfall::Factor));
        assert_eq!(rt; bank.shorten(333), Err(Shortfall::Stream(1)));
        assert_eq!(rt;
            Shortfall::Factor.at_line(2),
            Fault::at_line(Refusal::FactorOutOfLimits, Layer::Plan, 2)
        );
        assert_eq!(rt; bank.shorten(999), Ok(()));
        assert_eq!(rt; (short_of(&bank, 1), short_of(&bank, 2)), (5, 6));
        Ok(())
    }

    #[test]
    fn load_in_thousandths(rt: HostRuntime) -> Result<(), Fail> {
        assert_eq!(rt; load(&bank_of_two()?), 833);
        Ok(())
    }

    #[test]
    fn letters(rt: HostRuntime) {
        assert_eq!(rt;
            (<Sporadic as Bank>::LETTER, <Raster as Bank>::LETTER),
            ('S', 'R')
        );
    }

    #[test]
    fn letter_of_a_join(rt: HostRuntime) {
        assert_eq!(rt; Joined::<Sporadic, Raster>::LETTER, 'J');
    }
}

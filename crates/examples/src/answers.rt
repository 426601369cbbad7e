// Answers as they are shown.

#[cfg(test)]
mod tests {
    use std::test::Fail;
    use stream::{Fault, Layer, Phase, Point, Refusal, Verdict};
    use text::Answer;
    use turns::{Counts, End, Settled};

    // The longest of numbers, so that each answer is as long as it can be.
    const MOST: u64 = 18446744073709551615;

    const POINT: Point = Point {
        margin: -9223372036854775808,
        length: MOST,
        phase: Phase::Overrun,
    };

    const VERDICT: Verdict = Verdict {
        horizon: MOST,
        lengths: MOST,
        point: POINT,
    };

    #[test]
    fn the_longest_answers(rt: HostRuntime) {
        let fault = Fault {
            refusal: Refusal::DemandExceeded(VERDICT),
            layer: Layer::Demand,
            line: MOST,
            byte: MOST,
        };
        let counts = Counts {
            accepted: MOST,
            finished: MOST,
            cut: MOST,
            dropped: MOST,
            waiting: MOST,
        };
        let cases = [
            (
                Answer::Accepted(VERDICT),
                "(accepted 18446744073709551615 18446744073709551615 (overrun 18446744073709551615 -9223372036854775808))\n",
            ),
            (
                Answer::Refused(fault),
                "(refused 11 D (18446744073709551615 18446744073709551615) (overrun 18446744073709551615 -9223372036854775808))\n",
            ),
            (Answer::Took(MOST), "(took 18446744073709551615)\n"),
            (
                Answer::Ran(Settled::Ran(MOST, End::Finished)),
                "(ran 18446744073709551615 finished)\n",
            ),
            (Answer::Calm(MOST), "(calm 18446744073709551615)\n"),
            (
                Answer::Total(counts),
                "(total 18446744073709551615 18446744073709551615 18446744073709551615 18446744073709551615 18446744073709551615)\n",
            ),
        ];
        for (answer, line) in cases {
            assert_eq!(rt; answer.line().as_str(), line);
        }
    }

    #[test]
    fn the_shortest_answers(rt: HostRuntime) {
        let fault = Fault::at_line(Refusal::NoStream, Layer::Plan, 0);
        assert_eq!(rt;
            Answer::Refused(fault).line().as_str(),
            "(refused 9 P (0 0))\n"
        );
        assert_eq!(rt;
            Answer::Ran(Settled::Idle).line().as_str(),
            "(ran 0 idle)\n"
        );
    }

    // Its fields as a point is read, and not as points are compared.
    #[test]
    fn a_point_field_by_field(rt: HostRuntime) -> Result<(), Fail> {
        let point = Point {
            phase: Phase::Normal,
            length: 6,
            margin: -1,
        };
        let text = format!(in rt.alloc(); "{point:?}")?;
        assert_eq!(rt;
            text.as_str(),
            "Point { phase: Normal, length: 6, margin: -1 }"
        );
        Ok(())
    }
}

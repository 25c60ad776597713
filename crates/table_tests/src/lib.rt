//! The edges of number ranges, rows and tables.
#![tactic(auto)]

#[cfg(test)]
mod tests {
    use number::{Number, Range};
    use std::test::Fail;
    use table::{AddRefusal, Kind, LimitRefusal, Row, Table};
    use value::Value;

    // A row that keeps the rules, but perhaps for its kind.
    fn row(parameter: u8, kind: Kind, text: &[u8]) -> Row {
        Row {
            process: 1,
            parameter,
            kind,
            writable: false,
            text: Value::new(text).unwrap_or(Value::empty()),
            ..Row::default()
        }
    }

    // An integer row on a feed.
    fn drawing(parameter: u8, feed: u8, full_flow: u32, default: u16) -> Row {
        let range = Range {
            least: 0,
            greatest: 65_535,
            default,
        };
        Row {
            feed,
            full_flow,
            ..row(parameter, Kind::Integer(range), b"")
        }
    }

    fn float(least: f32, greatest: f32, default: f32) -> Kind {
        Kind::Float(Range {
            least,
            greatest,
            default,
        })
    }

    // Adds a row, or tells the number of the refusal.
    fn add(table: &mut Table, row: Row) -> Result<(), u8> {
        table.add(row).map_err(AddRefusal::number)
    }

    // Sets a limit, or tells the number of the refusal.
    fn set_limit(table: &mut Table, feed: u8, limit: u32) -> Result<(), u8> {
        table.set_limit(feed, limit).map_err(LimitRefusal::number)
    }

    #[test]
    fn numbers_by_their_bytes(rt: HostRuntime) {
        let range = Range {
            least: 0x0100u16,
            greatest: 0x0201,
            default: 0x0100,
        };
        for (high, low, inside) in [(1, 0, true), (2, 1, true), (0, 255, false), (2, 2, false)] {
            assert_eq!(rt; range.admits(&[high, low]), inside);
        }
        assert!(rt; !range.admits(&[1]) && !range.admits(&[1, 0, 0]));
        let floats = Range {
            least: -0.0f32,
            greatest: f32::INFINITY,
            default: 0.0,
        };
        assert!(rt; floats.lawful(), "minus zero is at most zero");
        assert!(rt; floats.admits(&[0x80, 0, 0, 0]), "minus zero equals zero");
        assert!(rt; floats.admits(&[0x7f, 0x80, 0, 0]), "infinity is a number");
        assert!(rt; !floats.admits(&[0x80, 0, 0, 1]), "below zero");
        assert!(rt; !floats.admits(&[0x7f, 0xc0, 0, 0]), "not a number");
        assert!(rt; f32::read(&[0xff, 0x80, 0, 1]).is_none(), "not a number");
        assert!(rt; f32::NAN.write().is_none());
    }

    #[test]
    fn rules_of_rows(rt: HostRuntime) {
        let nan = f32::NAN;
        let cases = [
            (row(0, float(0.0, 1000.0, 500.0), b""), Ok(())),
            (row(1, float(nan, 1000.0, 500.0), b""), Err(2)),
            (row(1, float(0.0, nan, 500.0), b""), Err(2)),
            (row(1, float(0.0, 1000.0, nan), b""), Err(2)),
            (row(1, float(0.0, 1000.0, 500.0), b"x"), Err(2)),
            (row(2, Kind::Text { len: 0 }, b""), Err(2)),
            (row(2, Kind::Text { len: 1 }, b"\x00"), Ok(())),
            (
                row(3, Kind::Text { len: 24 }, b"abcdefghijklmnopqrstuvwx"),
                Ok(()),
            ),
            (
                row(4, Kind::Text { len: 24 }, b"abcdefghijklmnopqrstuvw"),
                Err(2),
            ),
            (
                row(4, Kind::Text { len: 25 }, b"abcdefghijklmnopqrstuvwx"),
                Err(2),
            ),
            (row(5, Kind::OpenText, b""), Ok(())),
            (row(6, Kind::OpenText, b"HALL"), Ok(())),
            (row(7, Kind::OpenText, b"HA\x00L"), Err(2)),
            (row(31, Kind::OpenText, b""), Ok(())),
            (row(32, Kind::OpenText, b""), Err(2)),
        ];
        let mut table = Table::new();
        for (row, told) in cases {
            assert_eq!(rt; add(&mut table, row), told);
        }
        assert_eq!(rt; table.len(), 7);
    }

    #[test]
    fn admitted_texts(rt: HostRuntime) {
        let bytes = b"abcdefghijklmnopqrstuvwxy";
        let open = row(0, Kind::OpenText, b"");
        let fixed = row(0, Kind::Text { len: 24 }, b"");
        for (len, opens, fits) in [
            (0, true, false),
            (1, true, false),
            (24, true, true),
            (25, false, false),
        ] {
            assert!(rt; len <= bytes.len());
            assert_eq!(rt; open.admits(&bytes[0..len]), opens);
            assert_eq!(rt; fixed.admits(&bytes[0..len]), fits);
        }
        assert!(rt; !open.admits(b"a\x00"));
        assert!(rt; row(0, Kind::Text { len: 2 }, b"").admits(b"a\x00"));
    }

    #[test]
    fn feeds_and_limits(rt: HostRuntime) {
        let mut table = Table::new();
        assert_eq!(rt;
            add(&mut table, drawing(0, 8, 1_000_000, 1)),
            Err(6),
            "the limit is 0"
        );
        for (feed, limit, told) in [
            (0, 1, Err(5)),
            (9, 1, Err(5)),
            (8, 1_000_001, Err(5)),
            (8, 1_000_000, Ok(())),
        ] {
            assert_eq!(rt; set_limit(&mut table, feed, limit), told);
        }
        for (feed, full_flow, told) in [
            (9, 1, Err(2)),
            (8, 0, Err(2)),
            (8, 1_000_001, Err(2)),
            (0, 1, Err(2)),
            (8, 1_000_000, Ok(())),
        ] {
            assert_eq!(rt; add(&mut table, drawing(0, feed, full_flow, 32_000)), told);
        }
        assert_eq!(rt; table.limit(8), Some(1_000_000));
        assert_eq!(rt; table.limit(9), None);
    }

    #[test]
    fn limits_at_the_draw(rt: HostRuntime) {
        let mut table = Table::new();
        assert_eq!(rt; set_limit(&mut table, 1, 41), Ok(()));
        // The default 32,000 at a full flow of 40 draws just what the limit 40 allows.
        assert_eq!(rt; add(&mut table, drawing(0, 1, 40, 32_000)), Ok(()));
        for (limit, told) in [(39, Err(6)), (40, Ok(())), (0, Err(6))] {
            assert_eq!(rt; set_limit(&mut table, 1, limit), told);
        }
        assert_eq!(rt; table.limit(1), Some(40));
        assert_eq!(rt; add(&mut table, drawing(1, 1, 1, 1)), Err(6));
        assert_eq!(rt; add(&mut table, drawing(1, 1, 1_000_000, 0)), Ok(()));
        let mut values = [0; 128];
        values[1] = 32_000;
        assert!(rt; table.is_within(1, &values));
        values[2] = 1;
        assert!(rt; !table.is_within(1, &values));
        assert_eq!(rt; table.draw(1, &values), 2_280_000);
        assert_eq!(rt; table.draw(2, &values), 0);
    }

    #[test]
    fn as_many_as_128_rows(rt: HostRuntime) -> Result<(), Fail> {
        let mut table = Table::new();
        for parameter in 0..127 {
            let row = Row {
                process: 1 + parameter / 32,
                ..row(parameter % 32, Kind::OpenText, b"")
            };
            assert_eq!(rt; add(&mut table, row), Ok(()));
        }
        assert_eq!(rt; table.len(), 128);
        assert_eq!(rt; add(&mut table, row(32, Kind::OpenText, b"")), Err(2));
        assert_eq!(rt;
            add(&mut table, row(0, Kind::OpenText, b"")),
            Err(4),
            "the pair is taken too"
        );
        for (process, parameter, number) in [
            (0, 10, Some(0)),
            (4, 30, Some(127)),
            (4, 31, None),
            (5, 0, None),
        ] {
            assert_eq!(rt; table.find(process, parameter), number);
        }
        assert!(rt; table.has_process(4) && !table.has_process(5));
        assert!(rt; table.row(127).is_some() && table.row(128).is_none());
        assert!(rt; table.default_value(128).is_none());
        let value = table
            .default_value(0)
            .ok_or_else(|| Fail::new("row 0 has a default"))?;
        assert_eq!(rt; value.as_slice(), [82].as_slice());
        Ok(())
    }

    #[test]
    fn rows_in_the_order_of_adding(rt: HostRuntime) {
        let mut table = Table::new();
        for parameter in [7, 3] {
            assert_eq!(rt;
                add(&mut table, row(parameter, Kind::OpenText, b"")),
                Ok(())
            );
        }
        let rows = table.rows();
        assert_eq!(rt; rows.len(), 3);
        for (row, parameter) in rows.iter().zip([10, 7, 3]) {
            assert_eq!(rt; row.parameter, parameter);
        }
        let reset = Row::default();
        assert_eq!(rt; (reset.process, reset.parameter), (0, 10));
        assert!(rt; reset.keeps_rules());
    }

    #[test]
    fn taken_pairs(rt: HostRuntime) {
        let mut table = Table::new();
        for (process, told) in [(0, Err(3)), (128, Err(2)), (127, Ok(())), (127, Err(3))] {
            let row = Row {
                process,
                ..row(10, Kind::OpenText, b"")
            };
            assert_eq!(rt; add(&mut table, row), told);
        }
        assert_eq!(rt; table.len(), 2);
    }
}

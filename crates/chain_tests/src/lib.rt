//! The checks of chains at their places, chains taken apart, and answers put together.
#![tactic(auto)]

#[cfg(test)]
mod tests {
    use chain::access::{Access, Command};
    use chain::answer::ReadAnswer;
    use chain::check::check as judge;
    use chain::fault::{ChainFault, Layer, RackFault};
    use chain::item::{Item, Query};
    use chain::reader::Chain;
    use line::fault::LineFault;
    use line::refusal::Flaw;
    use number::Range;
    use std::process::Abort;
    use std::test::Fail;
    use table::{Kind, Row, Table};
    use value::Value;

    const LOCKED: Access = Access::Write { unlocked: false };

    const UNLOCKED: Access = Access::Write { unlocked: true };

    // A row that may be read and written.
    fn row(process: u8, parameter: u8, kind: Kind, text: &[u8]) -> Row {
        Row {
            process,
            parameter,
            kind,
            text: Value::new(text).unwrap_or(Value::empty()),
            ..Row::default()
        }
    }

    fn integer(greatest: u16) -> Kind {
        Kind::Integer(Range {
            least: 0,
            greatest,
            default: 0,
        })
    }

    // Rows 1 to 5 are those of a show rack: two set points on feed 1, a measure, a name and a float. Behind them stand a text
    // of 3 bytes, a char that is only written, and a long.
    fn show_table(rt: &impl Abort) -> Table {
        let first = Row {
            feed: 1,
            full_flow: 30_000,
            ..row(1, 1, integer(32_000), b"")
        };
        let second = Row {
            feed: 1,
            full_flow: 40_000,
            ..row(2, 1, integer(32_000), b"")
        };
        let measure = Row {
            writable: false,
            ..row(1, 0, integer(41_942), b"")
        };
        let name = Row {
            secured: true,
            ..row(113, 6, Kind::OpenText, b"HALL")
        };
        let float = Kind::Float(Range {
            least: 0.0,
            greatest: 1000.0,
            default: 500.0,
        });
        let char = Kind::Char(Range {
            least: 0,
            greatest: 100,
            default: 0,
        });
        let hidden = Row {
            readable: false,
            ..row(5, 2, char, b"")
        };
        let long = Kind::Long(Range {
            least: 0,
            greatest: 1_000_000,
            default: 0,
        });
        let mut table = Table::new();
        assert!(rt; table.set_limit(1, 50_000).is_ok());
        for row in [
            first,
            second,
            measure,
            name,
            row(104, 3, float, b""),
            row(5, 1, Kind::Text { len: 3 }, b"abc"),
            hidden,
            row(5, 3, long, b""),
        ] {
            assert!(rt; table.add(row).is_ok());
        }
        table
    }

    // As a desk is told: 00 at the data length for a chain that passes.
    fn status(table: &Table, access: Access, message: &[u8]) -> (u8, usize) {
        match judge(table, access, message) {
            Ok(()) => (0, message.len()),
            Err(fault) => (fault.code(), fault.place()),
        }
    }

    #[test]
    fn commands(rt: HostRuntime) {
        for byte in 0..=255 {
            let expected = match byte {
                1 => Ok(Command::Write),
                2 => Ok(Command::WriteUnanswered),
                4 => Ok(Command::Read),
                _ => Err((0x02, 0)),
            };
            let command = Command::try_from(byte).map_err(|fault| (fault.code(), fault.place()));
            assert_eq!(rt; command, expected);
        }
    }

    #[test]
    fn writes(rt: HostRuntime) {
        let table = show_table(&rt);
        let cases: [(&[u8], u8, usize); 43] = [
            // The process, judged before the byte behind it is asked for.
            (b"\x01\x09", 0x03, 1),
            (b"\x01\x89\x21\x00\x00", 0x03, 1),
            (b"\x01\x81\x21\x3e\x80\x09", 0x03, 5),
            // The parameter, judged before its value is asked for: look-up, type, permission.
            (b"\x01\x01", 0x22, 2),
            (b"\x01\x01\x22", 0x04, 2),
            (b"\x01\x01\x3f\x00\x00", 0x04, 2),
            (b"\x01\x01\xa1\x3e\x80\x3f", 0x04, 5),
            (b"\x01\x01\x01", 0x05, 2),
            (b"\x01\x01\x41\x3e\x80", 0x05, 2),
            (b"\x01\x01\x61", 0x05, 2),
            (b"\x01\x01\x40", 0x05, 2),
            (b"\x01\x71\x46", 0x05, 2),
            (b"\x01\x01\xa1\x3e\x80\x01", 0x05, 5),
            (b"\x01\x01\x20", 0x0d, 2),
            (b"\x01\x01\x20\x00\x00", 0x0d, 2),
            (b"\x01\x01\xa1\x3e\x80\x20", 0x0d, 5),
            (b"\x01\x71\x66", 0x0d, 2),
            (b"\x01\x71\x66\x01", 0x0d, 2),
            // A chain does not unlock its own items.
            (b"\x01\x80\x0a\x40\x71\x66\x00\x00", 0x0d, 5),
            // Numbers: in range, above it, below it, not a number.
            (b"\x01\x01\x21\x7d\x00", 0x00, 5),
            (b"\x01\x01\x21\x7d\x01", 0x06, 3),
            (b"\x01\x01\x21\x7d", 0x22, 4),
            (b"\x01\x01\x21\xff", 0x22, 4),
            (b"\x01\x01\xa1\x3e\x80\x21\x7d\x01", 0x06, 6),
            (b"\x01\x68\x43\x44\x7a\x00\x00", 0x00, 7),
            (b"\x01\x68\x43\x44\x7a\x00\x01", 0x06, 3),
            (b"\x01\x68\x43\x80\x00\x00\x00", 0x00, 7),
            (b"\x01\x68\x43\xbf\x80\x00\x00", 0x06, 3),
            (b"\x01\x68\x43\x7f\xc0\x00\x00", 0x06, 3),
            (b"\x01\x05\x02\x64", 0x00, 4),
            (b"\x01\x05\x02\x65", 0x06, 3),
            (b"\x01\x05\x43\x00\x0f\x42\x40", 0x00, 7),
            (b"\x01\x05\x43\x00\x0f\x42\x41", 0x06, 3),
            // A fixed text: its length first, then any bytes.
            (b"\x01\x05\x61\x03\x61\x00\x62", 0x00, 7),
            (b"\x01\x05\x61\x00", 0x06, 3),
            (b"\x01\x05\x61\x02\x61\x62", 0x06, 3),
            (b"\x01\x05\x61\x04", 0x06, 3),
            // Bytes behind the end.
            (b"\x01\x01\x21\x3e\x80\x00", 0x22, 5),
            (b"\x01\x01\x21\x3e\x80\x02\x21", 0x22, 5),
            // Two groups; two items; the same as command 02; what a feed can carry is not for the chain to say.
            (b"\x01\x81\x21\x3e\x80\x02\x21\x6d\x60", 0x00, 9),
            (b"\x01\x81\x21\x3e\x80\x02\x21\x6d\x61", 0x00, 9),
            (b"\x02\x01\xa1\x3e\x80\x21\x3e\x80", 0x00, 8),
            (b"\x02\x01\xa1\x3e\x80\x21\x7d\x01", 0x06, 6),
        ];
        for (message, code, place) in cases {
            assert_eq!(rt; status(&table, LOCKED, message), (code, place));
        }
        let name: &[u8] = b"\x01\x71\x66\x00\x42\x41\x52\x00";
        assert_eq!(rt; status(&table, LOCKED, name), (0x0d, 2));
        assert_eq!(rt; status(&table, UNLOCKED, name), (0, 8));
        assert_eq!(rt; status(&table, UNLOCKED, b"\x01\x01\x20"), (0x0d, 2));
    }

    #[test]
    fn reads(rt: HostRuntime) {
        let table = show_table(&rt);
        let cases: [(&[u8], u8, usize); 29] = [
            // The row is found by p and q: the group and the low bits of x are free.
            (b"\x04\x01\x21\x01\x21", 0x00, 5),
            (b"\x04\x09\x3f\x01\x21", 0x00, 5),
            (b"\x04\x02\x20\x01\x20", 0x00, 5),
            (b"\x04\x01\x20\x02\x20", 0x04, 4),
            // The process, judged before the parameter is asked for.
            (b"\x04\x01\x21\x81", 0x22, 3),
            (b"\x04\x01\x21\x81\x21", 0x22, 3),
            (b"\x04\x01\x21\x09", 0x03, 3),
            (b"\x04\x01\x21\x09\xa1", 0x03, 3),
            // The parameter: top bit, look-up, type, permission.
            (b"\x04\x01\x21\x01\xa1", 0x22, 4),
            (b"\x04\x01\x21\x01\xbf", 0x22, 4),
            (b"\x04\x01\x21\x01\x3f", 0x04, 4),
            (b"\x04\x01\x01\x01\x3f", 0x04, 4),
            (b"\x04\x01\x01\x01\x01", 0x05, 4),
            (b"\x04\x01\x01\x01\x21", 0x05, 4),
            (b"\x04\x01\x21\x01\x01", 0x05, 4),
            (b"\x04\x05\x22\x05\x02", 0x05, 4),
            (b"\x04\x05\x02\x05\x02", 0x11, 4),
            // The length of a text.
            (b"\x04\x05\x61\x05\x61\x03", 0x00, 6),
            (b"\x04\x05\x61\x05\x61\x02", 0x06, 5),
            (b"\x04\x05\x61\x05\x61\x00", 0x06, 5),
            (b"\x04\x71\x66\x71\x66\x00", 0x00, 6),
            (b"\x04\x71\x66\x71\x66\x04", 0x06, 5),
            // Bytes behind the end.
            (b"\x04\x01\x21\x01\x21\x00", 0x22, 5),
            // The same further on.
            (b"\x04\x01\xa1\x01\x21\x21\x09", 0x03, 6),
            (b"\x04\x01\xa1\x01\x21\x21\x01\x3f", 0x04, 7),
            (b"\x04\x01\xa1\x01\x21\x01\x01\x21", 0x05, 7),
            (b"\x04\x01\xa1\x01\x21\x02\x05\x02", 0x11, 7),
            (b"\x04\x81\x21\x01\x21\x09\x21\x81", 0x22, 7),
            (b"\x04\x81\x21\x01\x21\x09\x61\x05\x61\x04", 0x06, 9),
        ];
        for (message, code, place) in cases {
            assert_eq!(rt; status(&table, Access::Read, message), (code, place));
        }
    }

    // A chain that passes lacks a byte wherever it is cut.
    fn cut_anywhere(rt: &impl Abort, table: &Table, access: Access, message: &[u8]) {
        for len in 0..message.len() {
            assert_eq!(rt; status(table, access, &message[0..len]), (0x22, len));
        }
        assert_eq!(rt; status(table, access, message), (0, message.len()));
    }

    #[test]
    fn missing_bytes(rt: HostRuntime) {
        let table = show_table(&rt);
        cut_anywhere(
            &rt,
            &table,
            UNLOCKED,
            b"\x01\
              \x81\xa1\x3e\x80\x21\x00\x05\
              \x85\xe1\x03\x61\x00\x62\x82\x64\x43\x00\x0f\x42\x40\
              \xf1\x66\x00\x42\x41\x52\x00\
              \x68\x43\x44\x7a\x00\x00",
        );
        cut_anywhere(
            &rt,
            &table,
            Access::Read,
            b"\x04\
              \x81\xa1\x01\x21\x20\x01\x20\
              \x85\xe1\x05\x61\x03\x43\x05\x43\
              \x71\x66\x71\x66\x00",
        );
    }

    #[test]
    fn open_texts(rt: HostRuntime) {
        let table = show_table(&rt);
        let mut bytes = [0x41; 32];
        bytes[0] = 0x01;
        bytes[1] = 0x71;
        bytes[2] = 0x66;
        bytes[3] = 0x00;
        // With no 00 behind the text.
        for len in 0..28 {
            let expected = if len <= 24 {
                (0x22, 4 + len)
            } else {
                (0x06, 3)
            };
            assert_eq!(rt; status(&table, UNLOCKED, &bytes[0..4 + len]), expected);
        }
        // With one.
        for (len, code, place) in [(0, 0x00, 5), (1, 0x00, 6), (24, 0x00, 29), (25, 0x06, 3)] {
            assert!(rt; len <= 25);
            let mut ended = bytes;
            ended[4 + len] = 0x00;
            assert_eq!(rt; status(&table, UNLOCKED, &ended[0..5 + len]), (code, place));
        }
        // The first 00 ends it.
        bytes[28] = 0x00;
        assert_eq!(rt; status(&table, UNLOCKED, &bytes), (0x22, 29));
        assert_eq!(rt; status(&table, UNLOCKED, b"\x01\x71\x66\x01"), (0x06, 3));
    }

    // A chain of writes gives these rows, places and values, and then ends.
    fn gives<'a>(
        rt: &impl Abort,
        table: &'a Table,
        message: &'a [u8],
        items: &[(usize, usize, &[u8])],
    ) -> Result<(), Fail> {
        let mut chain = Chain::new(table, UNLOCKED, message);
        for expected in items {
            let Ok(Some(item)) = chain.next() else {
                return Err(Fail::new("an item comes next"));
            };
            let Item::Write { row, place, value } = item else {
                return Err(Fail::new("the item is a write"));
            };
            assert_eq!(rt; (row, place, value), *expected);
            assert_eq!(rt; (item.row(), item.place()), (row, place));
        }
        assert!(rt; matches!(chain.next(), Ok(None)));
        Ok(())
    }

    #[test]
    fn writes_taken_apart(rt: HostRuntime) -> Result<(), Fail> {
        let table = show_table(&rt);
        gives(
            &rt,
            &table,
            b"\x01\
              \x81\xa1\x3e\x80\x21\x00\x05\
              \x05\xe1\x03\x61\x00\x62\x43\x00\x0f\x42\x40",
            &[
                (1, 2, b"\x3e\x80"),
                (1, 5, b"\x00\x05"),
                (6, 9, b"a\x00b"),
                (8, 14, b"\x00\x0f\x42\x40"),
            ],
        )?;
        gives(
            &rt,
            &table,
            b"\x01\
              \xf1\x66\x00\x42\x41\x52\x00\
              \x00\x0a\x40",
            &[(4, 2, b"BAR"), (0, 9, b"\x40")],
        )
    }

    #[test]
    fn reads_taken_apart_and_answered(rt: HostRuntime) -> Result<(), Fail> {
        let table = show_table(&rt);
        let message = b"\x04\
          \x81\xa1\x01\x21\x3f\x01\x20\
          \x09\xe0\x05\x61\x03\x66\x71\x66\x00";
        let mut chain = Chain::new(&table, Access::Read, message);
        let mut answer = ReadAnswer::new();
        let items: [(usize, usize, Option<u8>, u8, &[u8]); 4] = [
            (1, 2, Some(0x81), 0xa1, b"\x3e\x80"),
            (3, 5, None, 0x3f, b"\x00\x07"),
            (6, 9, Some(0x09), 0xe0, b"a\x00b"),
            (4, 13, None, 0x66, b"HALL"),
        ];
        for (number, place, group, index, value) in items {
            let Ok(Some(item)) = chain.next() else {
                return Err(Fail::new("an item comes next"));
            };
            let Item::Read(query) = item else {
                return Err(Fail::new("the item is a read"));
            };
            assert_eq!(rt; (query.row, query.place), (number, place));
            assert_eq!(rt; (item.row(), item.place()), (number, place));
            assert_eq!(rt; (query.group, query.index), (group, index));
            let Some(row) = table.row(number) else {
                return Err(Fail::new("the row stands"));
            };
            assert!(rt; answer.put(query, row.kind, value).is_ok());
        }
        assert!(rt; matches!(chain.next(), Ok(None)));
        let expected: &[u8] = b"\x02\
          \x81\xa1\x3e\x80\x3f\x00\x07\
          \x09\xe0\x03\x61\x00\x62\x66\x00\x48\x41\x4c\x4c\x00";
        assert_eq!(rt; answer.as_slice(), expected);
        Ok(())
    }

    // Puts an open text: the answer's length, or status and index.
    fn put(
        answer: &mut ReadAnswer,
        place: usize,
        group: Option<u8>,
        text: &[u8],
    ) -> Result<usize, (u8, usize)> {
        let query = Query {
            row: 4,
            place,
            group,
            index: 0x66,
        };
        answer
            .put(query, Kind::OpenText, text)
            .map_err(|fault| (fault.code(), fault.place()))?;
        Ok(answer.as_slice().len())
    }

    #[test]
    fn answers_of_64_bytes(rt: HostRuntime) {
        let text = b"abcdefghijklmnopqrstuvwx";
        let mut answer = ReadAnswer::new();
        assert_eq!(rt; put(&mut answer, 2, Some(0x71), text), Ok(29));
        assert_eq!(rt; put(&mut answer, 6, None, text), Ok(56));
        assert_eq!(rt; put(&mut answer, 10, None, b"123456"), Err((0x1c, 10)));
        assert_eq!(rt; put(&mut answer, 11, Some(0x71), b"12345"), Err((0x1c, 11)));
        assert_eq!(rt; answer.as_slice().len(), 56, "what is refused adds nothing");
        assert_eq!(rt; put(&mut answer, 10, None, b"12345"), Ok(64));
        assert_eq!(rt; put(&mut answer, 14, None, b""), Err((0x1c, 14)));
    }

    fn on_the_line(fault: LineFault) -> Result<(), LineFault> {
        Err(fault)
    }

    fn in_the_chain(fault: LineFault) -> Result<(), ChainFault> {
        on_the_line(fault)?;
        Ok(())
    }

    fn in_the_rack(fault: LineFault) -> Result<(), RackFault> {
        in_the_chain(fault)?;
        Ok(())
    }

    fn told(fault: RackFault) -> (Layer, u8, usize) {
        (fault.layer(), fault.code(), fault.place())
    }

    #[test]
    fn layers(rt: HostRuntime) -> Result<(), Fail> {
        for (fault, code) in [
            (LineFault::Unreadable(Flaw::NotAFrame), 8),
            (LineFault::OtherNode, 0x05),
        ] {
            let Err(fault) = in_the_rack(fault) else {
                return Err(Fail::new("the line's fault is carried"));
            };
            assert_eq!(rt; told(fault), (Layer::Line, code, 0));
        }
        for (fault, code) in [
            (ChainFault::MissingByte { index: 7 }, 0x22),
            (ChainFault::TopBit { index: 7 }, 0x22),
            (ChainFault::ExtraByte { index: 7 }, 0x22),
            (ChainFault::AnswerTooLong { index: 7 }, 0x1c),
        ] {
            assert_eq!(rt; told(RackFault::Chain(fault)), (Layer::Chain, code, 7));
        }
        let command = RackFault::Chain(ChainFault::UnknownCommand);
        assert_eq!(rt; told(command), (Layer::Chain, 0x02, 0));
        for (fault, code) in [
            (RackFault::NoProcess { index: 7 }, 0x03),
            (RackFault::NoParameter { index: 7 }, 0x04),
            (RackFault::WrongType { index: 7 }, 0x05),
            (RackFault::NotWritable { index: 7 }, 0x0d),
            (RackFault::Secured { index: 7 }, 0x0d),
            (RackFault::NotReadable { index: 7 }, 0x11),
            (RackFault::BadValue { index: 7 }, 0x06),
            (RackFault::BadLength { index: 7 }, 0x06),
            (RackFault::OverLimit { index: 7 }, 0x06),
        ] {
            assert_eq!(rt; told(fault), (Layer::Table, code, 7));
        }
        Ok(())
    }
}

// Both stores against the rules, and against each other.
#![tactic(auto)]

#[cfg(test)]
mod tests {
    use std::process::Abort;
    use store::cells::Cells;
    use store::changes::Changes;
    use store::{AskRefusal, KeepRefusal, ROWS, Store};

    // Keeps a value, or tells the number of the refusal.
    fn keep(store: &mut impl Store, row: usize, value: &[u8]) -> Result<(), u8> {
        store.keep(row, value).map_err(KeepRefusal::number)
    }

    // Asks for a value: its length, or the number of the refusal.
    fn ask(store: &impl Store, row: usize, buffer: &mut [u8]) -> Result<usize, u8> {
        store.ask(row, buffer).map_err(AskRefusal::number)
    }

    // The row has this value, and asking for it leaves the bytes past it.
    fn holds(rt: &impl Abort, store: &impl Store, row: usize, value: &[u8]) {
        let mut buffer = [0xEE; 26];
        assert_eq!(rt; ask(store, row, &mut buffer), Ok(value.len()));
        assert!(rt; value.len() <= 26);
        let (asked, rest) = buffer.split_at(value.len());
        assert_eq!(rt; asked, value);
        assert!(rt; rest.iter().all(|byte| *byte == 0xEE));
    }

    fn keeps_within_bounds(rt: &impl Abort, store: &mut impl Store) {
        let bytes = b"abcdefghijklmnopqrstuvwxyz";
        for (row, len, answer) in [
            (127usize, 24usize, Ok(())),
            (128, 24, Err(7u8)),
            (127, 25, Err(7)),
            (128, 25, Err(7)),
            (128, 0, Err(7)),
        ] {
            assert!(rt; len <= 26);
            assert_eq!(rt; keep(store, row, &bytes[..len]), answer);
        }
        holds(rt, store, 127, &bytes[..24]);
        holds(rt, store, 126, &[]);
    }

    fn asks_within_bounds(rt: &impl Abort, store: &impl Store) {
        for (len, row, answer) in [
            (23usize, 127usize, Err(1u8)),
            (23, 128, Err(1)),
            (24, 128, Err(7)),
            (24, 127, Ok(0usize)),
        ] {
            let mut buffer = [0xEE; 24];
            assert!(rt; len <= 24);
            assert_eq!(rt; ask(store, row, &mut buffer[..len]), answer);
            assert_eq!(rt; buffer, [0xEE; 24]);
        }
    }

    #[test]
    fn bounds(rt: HostRuntime) {
        asks_within_bounds(&rt, &Cells::new());
        asks_within_bounds(&rt, &Changes::new());
        keeps_within_bounds(&rt, &mut Cells::new());
        keeps_within_bounds(&rt, &mut Changes::new());
    }

    fn forgets_nothing(rt: &impl Abort, store: &mut impl Store) {
        let cases: [(usize, &[u8]); 5] = [
            (5, b"HALL"),
            (6, b"FOG"),
            (5, b""),
            (6, b"HAZE"),
            (6, b"H"),
        ];
        for (row, value) in cases {
            assert_eq!(rt; keep(store, row, value), Ok(()));
            holds(rt, store, row, value);
        }
        holds(rt, store, 5, b"");
        holds(rt, store, 6, b"H");
    }

    #[test]
    fn an_empty_value_over_a_longer_one(rt: HostRuntime) {
        forgets_nothing(&rt, &mut Cells::new());
        forgets_nothing(&rt, &mut Changes::new());
    }

    // Keeps 0, 1, 2 and so on for the first rows in turn, and asks for each row's newest.
    fn fills(rt: &impl Abort, rows: usize, keeps: u8) {
        assert!(rt; 0 < rows);
        let mut store = Changes::new();
        for n in 0..keeps {
            assert_eq!(rt; keep(&mut store, n as usize % rows, &[n]), Ok(()));
        }
        for row in 0..ROWS {
            match (0..keeps).rev().find(|n| *n as usize % rows == row) {
                Some(n) => holds(rt, &store, row, &[n]),
                None => holds(rt, &store, row, &[]),
            }
        }
    }

    #[test]
    fn a_full_list(rt: HostRuntime) {
        for rows in [1, 64, 127, 128] {
            fills(&rt, rows, 192);
            fills(&rt, rows, 193);
        }
    }

    fn same(rt: &impl Abort, cells: &Cells, changes: &Changes, row: usize, room: usize) {
        assert!(rt; room <= 26);
        let mut one = [0xEE; 26];
        let mut other = [0xEE; 26];
        assert_eq!(rt;
            ask(cells, row, &mut one[..room]),
            ask(changes, row, &mut other[..room])
        );
        assert_eq!(rt; one, other);
    }

    #[test]
    fn both_stores_alike(rt: HostRuntime) {
        let text = b"a long mixed list of values for rows up to and past the last one";
        let mut cells = Cells::new();
        let mut changes = Changes::new();
        let mut seed = 1u32;
        for _ in 0..2000 {
            seed = seed.wrapping_mul(1_664_525).wrapping_add(1_013_904_223);
            let row = (seed >> 24) as usize % 140;
            let start = (seed >> 16) as usize % 32;
            let len = (seed >> 8) as usize % 27;
            let value = &text[start..start + len];
            assert_eq!(rt;
                keep(&mut cells, row, value),
                keep(&mut changes, row, value)
            );
            same(&rt, &cells, &changes, row, 22 + len % 4);
        }
        for row in 0..ROWS {
            same(&rt, &cells, &changes, row, 24);
        }
    }
}

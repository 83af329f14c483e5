//! Readers that give few bytes at a time, or fail.

use graph_folder::folder::{ReadError, read_all};
use graph_vectors::Source;
use std::alloc::Global;
use std::process::Abort;

/// So many bytes, which repeat the numbers from 0 to 250.
pub fn numbers(rt: &impl Abort, alloc: Global, len: usize) -> Vec<u8> {
    let mut bytes = Vec::new(alloc);
    for at in 0..len {
        bytes.push((at % 251) as u8).expect(rt, "memory");
    }
    bytes
}

/// A number of bytes, how many of them a read gives at most, and how many reads it takes at least
/// to give them all and to find the end.
const PIECES: &[(usize, usize, usize)] = &[
    (0, 1, 1),
    (1, 1, 2),
    (10, 1, 11),
    (10, 3, 5),
    (10, 10, 2),
    (10, 11, 2),
    (1324, 100, 15),
    (100_000, 5000, 21),
];

/// Compares what a reader gives in all. Then each of its reads fails in turn.
fn compare_pieces(rt: &impl Abort, alloc: Global, rows: &[(usize, usize, usize)]) {
    for (len, most, reads) in rows {
        let bytes = numbers(rt, alloc, *len);
        let mut reader = Source::new(&bytes, *most, None);
        let read = read_all(alloc, &mut reader).ok().expect(rt, "all bytes");
        assert!(rt; read.as_slice() == bytes.as_slice() && reader.reads >= *reads);
        for fails_at in 0..*reads {
            let failed = read_all(alloc, &mut Source::new(&bytes, *most, Some(fails_at)));
            assert!(rt; failed.err() == Some(ReadError::Device));
        }
    }
}

#[test]
fn a_reader_gives_all_its_bytes_or_fails(rt: HostRuntime) {
    compare_pieces(&rt, rt.alloc(), PIECES);
}

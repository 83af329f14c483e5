//! The listings of files that are built for them.

use crate::asking::{Asked, Told, expect};
use crate::folders::{built, id_of};
use gix_hash_core::{Kind, ObjectId};
use graph_folder::folder::Memory;
use graph_vectors::refused::{ENTRIES, THREE};
use graph_vectors::{
    END, Entry, LayerPlan, PlanCommit, file_of_parts, file_of_plan, file_of_zeros, words,
};
use std::alloc::Global;
use std::process::Abort;

/// Compares what the listing of bytes is.
fn compare_listing(rt: &impl Abort, alloc: Global, bytes: &[u8], told: Told<'_>) {
    expect(rt, alloc, &mut Memory::new(alloc), Asked::List(bytes), told);
}

/// The numbers of a fan, where the only id begins with the byte 0x11: 17 of them are 0, and 239 are
/// 1.
fn fan_of_one(rt: &impl Abort, alloc: Global) -> Vec<u8> {
    let mut fan = words(alloc, &[0; 17]).expect(rt, "memory");
    let ones = words(alloc, &[1; 239]).expect(rt, "memory");
    fan.extend_from_slice(&ones).expect(rt, "memory");
    fan
}

/// The table of a file of one commit.
const ENTRIES_OF_ONE: &[Entry] = &[(b"OIDF", 56), (b"OIDL", 1080), (b"CDAT", 1100), (END, 1136)];

/// A file of one commit: its header, the entries of its table, and of its record the parents'
/// fields, the generation number and the time. The id repeats the byte 0x11, and its root tree's
/// the byte 0x22.
type OneCommit = (&'static [u8; 8], &'static [Entry], &'static [u8]);

/// The bytes of that file.
fn file_of_one(rt: &impl Abort, alloc: Global, (header, entries, fields): OneCommit) -> Vec<u8> {
    let fan = fan_of_one(rt, alloc);
    let parts: [&[u8]; 5] = [&fan, &[0x11; 20], &[0x22; 20], fields, &[0; 20]];
    file_of_parts(alloc, header, entries, &parts).expect(rt, "memory")
}

/// The header of a SHA-1 file of four chunks.
const FOUR: &[u8; 8] = b"CGPH\x01\x01\x04\x00";

/// A file of one commit, its size and its listing.
type ListedOne = (OneCommit, usize, &'static str);

const ONES: &[ListedOne] = &[
    (
        (
            THREE,
            ENTRIES_OF_ONE,
            b"\x70\0\0\0\x70\0\0\0\0\0\0\x04\0\0\0\0",
        ),
        1156,
        "layer sha1 bases 0 commits 1\n\
        0 1111111111111111111111111111111111111111 2222222222222222222222222222222222222222 1 0 -\n",
    ),
    // A second parent without a first.
    (
        (
            THREE,
            ENTRIES_OF_ONE,
            b"\x70\0\0\0\x80\0\0\0\0\0\0\x04\0\0\0\0",
        ),
        1156,
        "layer sha1 bases 0 commits 1\n\
        0 1111111111111111111111111111111111111111 2222222222222222222222222222222222222222 1 0 !1\n",
    ),
    // An index into an extra edge list as the first parent.
    (
        (
            THREE,
            ENTRIES_OF_ONE,
            b"\x80\0\0\0\x70\0\0\0\0\0\0\x07\xff\xff\xff\xff",
        ),
        1156,
        "layer sha1 bases 0 commits 1\n\
        0 1111111111111111111111111111111111111111 2222222222222222222222222222222222222222 1 17179869183 !2\n",
    ),
    // Parents in an extra edge list that is not there.
    (
        (
            THREE,
            ENTRIES_OF_ONE,
            b"\0\0\0\x05\x80\0\0\0\0\0\0\x08\0\0\0\0",
        ),
        1156,
        "layer sha1 bases 0 commits 1\n\
        0 1111111111111111111111111111111111111111 2222222222222222222222222222222222222222 2 0 5,!3\n",
    ),
    // An extra edge list that is the header and the table. The parents after the first are its
    // words from the offset of the table's last entry on.
    (
        (
            FOUR,
            &[
                (b"EDGE", 0),
                (b"OIDF", 68),
                (b"OIDL", 1092),
                (b"CDAT", 1112),
                (END, 1148),
            ],
            b"\0\0\0\x05\x80\0\0\x0f\0\0\0\x04\0\0\0\0",
        ),
        1168,
        "layer sha1 bases 0 commits 1\n\
        0 1111111111111111111111111111111111111111 2222222222222222222222222222222222222222 1 0 5,0,1148,!4\n",
    ),
];

/// Compares the sizes and listings of files of one commit.
fn compare_ones(rt: &impl Abort, alloc: Global, rows: &[ListedOne]) {
    for (file, size, want) in rows {
        let bytes = file_of_one(rt, alloc, *file);
        assert!(rt; bytes.len() == *size);
        compare_listing(rt, alloc, &bytes, (0, want));
    }
}

/// The header and the table of a file without commits, the number of bytes 0 after them, its size,
/// and what is told of it.
type Empty = (
    &'static [u8; 8],
    &'static [Entry],
    usize,
    usize,
    Told<'static>,
);

const EMPTY: &[Empty] = &[
    (
        THREE,
        ENTRIES,
        1044,
        1100,
        (0, "layer sha1 bases 0 commits 0\n"),
    ),
    (
        b"CGPH\x01\x02\x03\x00",
        ENTRIES,
        1056,
        1112,
        (0, "layer sha256 bases 0 commits 0\n"),
    ),
    // An extra edge list without words.
    (
        FOUR,
        &[
            (b"OIDF", 68),
            (b"OIDL", 1092),
            (b"CDAT", 1092),
            (b"EDGE", 1092),
            (END, 1092),
        ],
        1044,
        1112,
        (0, "layer sha1 bases 0 commits 0\n"),
    ),
    // Chunks that lie in the header and in the table.
    (
        FOUR,
        &[
            (b"OIDL", 0),
            (b"CDAT", 0),
            (b"XTRA", 0),
            (b"OIDF", 68),
            (END, 1092),
        ],
        1044,
        1112,
        (0, "layer sha1 bases 0 commits 0\n"),
    ),
];

/// Files that are no layers.
const REFUSED: &[Empty] = &[
    (THREE, ENTRIES, 1043, 1099, (1, "refused file 1\n")),
    (
        b"CGPH\x01\x03\x03\x00",
        ENTRIES,
        1044,
        1100,
        (1, "refused file 4\n"),
    ),
    (
        b"CGPH\x01\x01\x00\x00",
        ENTRIES,
        1044,
        1100,
        (1, "refused file 5 chunk 1\n"),
    ),
    (
        THREE,
        &[(b"OIDF", 56), (b"OIDL", 1080), (b"CDAT", 1079), (END, 1080)],
        1044,
        1100,
        (1, "refused file 5 chunk 6\n"),
    ),
    (
        b"CGPH\x01\x02\x03\x00",
        ENTRIES,
        1044,
        1100,
        (1, "refused file 15\n"),
    ),
];

/// Compares the sizes of files without commits, and what is told of them.
fn compare_empty(rt: &impl Abort, alloc: Global, rows: &[Empty]) {
    for (header, entries, zeros, size, told) in rows {
        let bytes = file_of_zeros(alloc, header, entries, *zeros).expect(rt, "memory");
        assert!(rt; bytes.len() == *size);
        compare_listing(rt, alloc, &bytes, *told);
    }
}

/// The file of a SHA-256 layer of one root on one base.
pub fn root_on_a_base(rt: &impl Abort, alloc: Global) -> Vec<u8> {
    let bases = vec![in alloc; ObjectId::from([0xab; 32])].expect(rt, "memory");
    let commit = PlanCommit {
        id: ObjectId::from([0x11; 32]),
        tree: ObjectId::from([0xee; 32]),
        parents: Vec::new(alloc),
        generation: 1,
        time: 7,
    };
    let plan = LayerPlan {
        kind: Kind::Sha256,
        bases,
        commits: vec![in alloc; commit].expect(rt, "memory"),
    };
    file_of_plan(alloc, &plan).expect(rt, "a file")
}

const ROOT_ON_A_BASE: &str = "layer sha256 bases 1 commits 1\n\
    base abababababababababababababababababababababababababababababababab\n\
    0 1111111111111111111111111111111111111111111111111111111111111111 \
    eeeeeeeeeeeeeeeeeeeeeeeeeeeeeeeeeeeeeeeeeeeeeeeeeeeeeeeeeeeeeeee 1 7 -\n";

const ON_TWO_BASES: &str = "layer sha1 bases 2 commits 2\n\
    base abababababababababababababababababababab\n\
    base cdcdcdcdcdcdcdcdcdcdcdcdcdcdcdcdcdcdcdcd\n\
    0 1111111111111111111111111111111111111111 9999999999999999999999999999999999999999 1 7 5,4\n\
    1 2222222222222222222222222222222222222222 9999999999999999999999999999999999999999 9 7 5,3,2\n";

/// Compares the listings of files that name bases.
fn compare_bases(rt: &impl Abort, alloc: Global) {
    let root = root_on_a_base(rt, alloc);
    compare_listing(rt, alloc, &root, (0, ROOT_ON_A_BASE));
    let rows: [(u8, &[u32], u32); 2] = [(0x11, &[5, 4], 1), (0x22, &[5, 3, 2], 9)];
    let bytes = built(rt, alloc, &[id_of(0xab), id_of(0xcd)], &rows);
    compare_listing(rt, alloc, &bytes, (0, ON_TWO_BASES));
}

#[test]
fn a_layer_is_listed_or_refused(rt: HostRuntime) {
    compare_ones(&rt, rt.alloc(), ONES);
    compare_empty(&rt, rt.alloc(), EMPTY);
    compare_empty(&rt, rt.alloc(), REFUSED);
    compare_listing(&rt, rt.alloc(), &[], (1, "refused file 1\n"));
    compare_bases(&rt, rt.alloc());
}

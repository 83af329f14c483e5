//! The longest chain of layers that a check takes, and one that is longer.

use crate::asking::{Asked, expect};
use crate::folders::{built, put_layer, put_lines};
use graph_folder::folder::Memory;
use std::alloc::Global;
use std::process::Abort;

/// Puts so many layers into the folder of a chain, and adds their lines. Each has one commit, whose
/// parent is the commit of the layer before. The bases of a layer are all those before it, but 255
/// at most.
fn put_layers(rt: &impl Abort, alloc: Global, memory: &mut Memory, lines: &mut String, count: u32) {
    let mut bases = Vec::new(alloc);
    for layer in 0..count {
        let below = [layer.saturating_sub(1)];
        let parents = if layer > 0 { below.as_slice() } else { &[] };
        let rows = [(0x11, parents, layer.saturating_add(1))];
        let bytes = built(rt, alloc, &bases[..bases.len().min(255)], &rows);
        let checksum = put_layer(rt, alloc, memory, bytes, lines);
        bases.push(checksum).expect(rt, "memory");
    }
}

/// How many bytes the lines of 256 layers have: each 40 digits and the byte that ends it.
const LINES: usize = 256 * 41;

const LONGEST: &str = "ok commits 256 longest 255\n\
    parents 0 commits 1\n\
    parents 1 commits 255\n";

#[test]
fn a_chain_of_256_layers_is_checked_and_no_longer_one(rt: HostRuntime) {
    let alloc = rt.alloc();
    let (mut folder, mut lines) = (Memory::new(alloc), String::new(alloc));
    put_layers(&rt, alloc, &mut folder, &mut lines, 257);
    let first = lines.get(..LINES).expect(&rt, "lines");
    let first = String::from_str(alloc, first).expect(&rt, "memory");
    put_lines(&rt, alloc, &mut folder, first);
    expect(&rt, alloc, &mut folder, Asked::Verify("g"), (0, LONGEST));
    put_lines(&rt, alloc, &mut folder, lines);
    let told = (1, "refused verify 1\n");
    expect(&rt, alloc, &mut folder, Asked::Verify("g"), told);
}

//! Classes of bytes that all places take alike, apart from places that take a single byte.
ghost use Rattle.std.specs.Prelude.{◌≡◌, ◌==◌, ◌<◌, ℕ, false, slice_index_or};
ghost use Rattle.glob_automaton.specs.inner.Alike.{IsAlike, AreAlike, AreEdges, IsSplit};

use crate::byte_bits::ByteBits;
use crate::chart::Chart;

/// For each byte the least of its class: each place takes both or neither, apart from places that take a single byte.
#[derive(Clone, Copy)]
pub(crate) struct ByteClasses {
    pub least: [u8; 256],
    /// The bytes whose class isn't that of the byte before.
    pub edges: ByteBits,
}

impl ByteClasses {
    /// The least byte alike to each, by the places of a chart.
    pub(crate) fn of(chart: &Chart) -> ByteClasses
        ensures alike { AreAlike chart.now result.least }
        ensures edges { AreEdges result.least result.edges.words }
    {
        let mut least = [0; 256];
        split(&mut least, &only(0));
        split(&mut least, &only(b'/'));
        for taken in &chart.classes {
            split(&mut least, taken);
        }
        let edges = edges_of(&least);
        ByteClasses { least, edges }
    }
}

// The bytes whose least one isn't that of the byte before.
fn edges_of(least: &[u8; 256]) -> ByteBits
    ensures { AreEdges least.now result.words }
{
    let mut edges = ByteBits::new();
    for byte in 1..256 {
        if least[byte] != least[byte - 1] {
            edges.add(byte as u8);
        }
    }
    edges
}

// That byte alone.
fn only(byte: u8) -> [bool; 256]
    ensures { (b : ℕ) → b < 256 → slice_index_or result b false ≡ (b == byte) }
{
    let mut taken = [false; 256];
    taken[byte as usize] = true;
    taken
}

// Separates the bytes that are taken from those that aren't.
fn split(least: &mut [u8; 256], taken: &[bool; 256])
    requires { IsAlike least.old }
    ensures { IsSplit least.old taken.now least.new }
{
    // For each least byte, the first byte of its class for which `taken` differs.
    let mut other: [Option<u8>; 256] = [None; 256];
    for byte in 0..256 {
        let old = least[byte] as usize;
        if taken[byte] == taken[old] {
            continue;
        }
        match other[old] {
            Some(first) => least[byte] = first,
            None => {
                other[old] = Some(byte as u8);
                least[byte] = byte as u8;
            }
        }
    }
}

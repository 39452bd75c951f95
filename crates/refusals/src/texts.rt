//! A text read, written, compiled, packed and made images of, and the images loaded.
ghost use Rattle.std.specs.Prelude.{IfOk};
ghost use Rattle.tables.specs.Bounds.{InBounds};
ghost use Rattle.tables.specs.Tables.{table_value};

use glob_automaton::{CompileFault, Dfa, compile};
use matcher::LoadedProfile;
use names::NoMemory;
use rule_reader::{Profile, ReadFault, read};
use rule_writer::write;
use std::alloc::Global;
use std::io::Print;
use storm_parts::{Call, Difference, Hash, How, Stop, again, compiled_of, expect, read_text};
use table_image::{pack, pack_chained};
use tables::{ImageFault, RawTable, from_bytes, to_bytes, to_bytes_v1};

/// Rules of several lengths, so that vectors grow more than once.
const TEXT: &[u8] =
    b"profile p {\n  /a/{b,c}/[d-f]*/** rw,\n  deny /a/**/key* w,\n  /x?z rk,\n  /etc/passwd m,\n}\n";

/// The greatest depth of the chains.
const MOST_DEPTH: u16 = 4;

/// Prints what becomes of a text.
pub(crate) fn show_texts<R: Print>(rt: &R, alloc: Global) -> Result<(), Stop> {
    let profile = read_text(alloc, TEXT)?;
    println!(rt; "read: {} rules", profile.rules().len())?;
    show_canonical(rt, alloc, &profile)?;
    let dfa = show_automaton(rt, alloc, &profile)?;
    show_flat(rt, alloc, &dfa)?;
    show_chained(rt, alloc, &dfa)?;
    let compiled = compiled_of(alloc, TEXT)?;
    println!(rt; "compiled: {} states", compiled.table().states())?;
    Ok(())
}

// The canonical text, which is read as the same rules.
fn show_canonical<R: Print>(rt: &R, alloc: Global, profile: &Profile) -> Result<(), Stop> {
    let text = again(Call::Write, NoMemory, || write(alloc, profile))?;
    let rules = again(Call::Read, ReadFault::NoMemory, || read(alloc, &text))?
        .rules()
        .len();
    expect(rules == profile.rules().len(), Call::Read, How::Answers)?;
    println!(rt; "write: {}", Hash::of(&text))?;
    Ok(())
}

// The automaton of the profile.
fn show_automaton<R: Print>(rt: &R, alloc: Global, profile: &Profile) -> Result<Dfa, Stop> {
    let dfa = again(
        Call::Compile,
        CompileFault::NoMemory,
        || compile(alloc, profile),
    )?;
    println!(rt; "compile: {} states", dfa.states())?;
    Ok(dfa)
}

// The tables without depths, and their images in both versions.
fn show_flat<R: Print>(rt: &R, alloc: Global, dfa: &Dfa) -> Result<(), Stop> {
    let table = packed(alloc, dfa)?;
    println!(rt; "pack: {} cells", table.next.len())?;
    let first = first_image_of(alloc, &table)?;
    println!(rt; "to_bytes_v1: {}", Hash::of(&first))?;
    let second = image_of(alloc, &table)?;
    println!(rt; "to_bytes: {}", Hash::of(&second))?;
    show_loaded(rt, alloc, &first, &second)
}

// The tables with chains of defaults, and their image.
fn show_chained<R: Print>(rt: &R, alloc: Global, dfa: &Dfa) -> Result<(), Stop> {
    let table = packed_chained(alloc, dfa)?;
    println!(rt;
        "pack_chained: {} cells, depth {}",
        table.next.len(),
        table.depth_bound
    )?;
    let image = image_of(alloc, &table)?;
    println!(rt; "to_bytes: {}", Hash::of(&image))?;
    show_loaded(rt, alloc, &image, &image)
}

fn packed(alloc: Global, dfa: &Dfa) -> Result<RawTable, Difference>
    ensures { IfOk result (λ table. InBounds (table_value table)) }
{
    again(Call::Pack, NoMemory, || pack(alloc, dfa))
}

fn packed_chained(alloc: Global, dfa: &Dfa) -> Result<RawTable, Difference>
    ensures { IfOk result (λ table. InBounds (table_value table)) }
{
    again(
        Call::PackChained,
        NoMemory,
        || pack_chained(alloc, dfa, MOST_DEPTH),
    )
}

// No rule of the text has append alone, so version 1 can hold its tables.
fn first_image_of(alloc: Global, table: &RawTable) -> Result<Vec<u8>, Difference>
    requires { InBounds (table_value table.now) }
{
    if !table.fits_version_1() {
        return Err(Difference::new(Call::Pack, How::Answers));
    }
    again(Call::ToBytesV1, NoMemory, || to_bytes_v1(alloc, table))
}

fn image_of(alloc: Global, table: &RawTable) -> Result<Vec<u8>, Difference>
    requires { InBounds (table_value table.now) }
{
    again(Call::ToBytes, NoMemory, || to_bytes(alloc, table))
}

// The table of an image, from which its image in version 2 is written, and the profile that is loaded from it.
fn show_loaded<R: Print>(rt: &R, alloc: Global, image: &[u8], second: &[u8]) -> Result<(), Stop> {
    let table = again(
        Call::FromBytes,
        ImageFault::NoMemory,
        || from_bytes(alloc, image),
    )?;
    let same = again(Call::ToBytes, NoMemory, || to_bytes(alloc, &table))?;
    expect(same.as_slice() == second, Call::FromBytes, How::Answers)?;
    println!(rt; "from_bytes: {} states", table.default.len())?;
    let loaded = again(
        Call::MakeLoadedProfile,
        ImageFault::NoMemory,
        || LoadedProfile::make(alloc, image),
    )?;
    println!(rt; "loaded: {} states", loaded.table().states())?;
    Ok(())
}

//! Making key files.

ghost use Rattle.std.specs.Prelude.{◌≡◌, ◌+◌, ◌<◌, ◌↔◌, ◌⊎◌, true, length, None, IfOk, IfErr, OnOk, IsOk, IsErrAnd};
ghost use Rattle.std.specs.Fs.{asks_write, asks_create_new};
ghost use Rattle.std.specs.Io.{ReadsAtMost};
ghost use Rattle.std.specs.Io.KnownBytes.{Consumes, ReadConsumes};
ghost use Rattle.std.specs.List.{flat_map};
ghost use Rattle.std.specs.Path.{path_buf_bytes};
ghost use Rattle.std.specs.IoError.{error_kind};
ghost use Rattle.key_making.specs.Table.{IsParty};
ghost use Rattle.node_settings.specs.Lawful.{IsLawfulKeys};
ghost use Rattle.key_files.specs.KeyFiles.{of_draw, party_at, file_name, GainsFile, IsUndrawn, IsUnwritten};

use crate::reading::memory_or;
use authenticators::Party;
use key_making::{DrawFault, KeyTable};
use node_settings::{Failure, KeysSettings, KeysTrouble};
use std::alloc::{AllocError, Global};
use std::fs::{Metadata, OpenOptions};
use std::io::{ErrorKind, Read, Write};
use std::os::unix::fs::OpenOptionsExt;
use std::path::{Path, PathBuf};
use std::random::RandomSource;
use std::rt::Files;
use std::{fs, io};

/// The permissions of a key file: its owner reads and writes it, and nobody else does either.
const OWNER_ALONE: u32 = 0o600;

/// The random bytes of the system, which have no end.
#[derive(Drop)]
struct RandomBytes<'a, R> {
    rt: &'a R,
}

impl<R: RandomSource> Read for RandomBytes<'_, R> {
    fn read(&mut self, buf: &mut [u8]) -> io::Result<usize>
        ensures bound { ReadsAtMost result buf.new }
        ensures bytes { ReadConsumes None None result buf.new }
        ensures whole { IfOk result (λ count. count ≡ length buf.new) }
    {
        self.rt.fill_bytes(buf)?;
        Ok(buf.len())
    }
}

/// Why no keys were drawn.
fn failure_of(fault: DrawFault) -> Failure
    ensures { result ≡ of_draw fault }
{
    match fault {
        DrawFault::NoBytes => Failure::Keys(KeysTrouble::NoBytes),
        DrawFault::OutOfMemory => Failure::OutOfMemory,
    }
}

/// The failure of a call on a key file or its folder.
fn unwritten(error: &io::Error) -> Failure
    ensures { IsUnwritten result }
{
    memory_or(error, Failure::Keys(KeysTrouble::Unwritten))
}

/// Draws the keys of all parties, and writes the key file of each into a folder, which is made where it isn't there. Answers
/// the exit status 0.
///
/// No file is overwritten, and none is written where the name of one is taken. Where a later one can't be written, those
/// before it stay.
pub fn write_keys<R: Files + RandomSource + AllocGlobal>(
    rt: &R,
    settings: KeysSettings<'_>,
) -> Result<u8, Failure>
    requires { IsLawfulKeys settings }
    ensures status { IfOk result (λ status. status ≡ 0) }
    ensures failed { IfErr result (λ failure. IsUndrawn failure ⊎ IsUnwritten failure) }
{
    let mut source = RandomBytes { rt };
    let table = drawn_table(rt.alloc(), &mut source, &settings)?;
    let folder = settings.out;
    fs::create_dir_all(rt, folder).map_err(|error| unwritten(&error))?;
    want_no_files(rt, folder, &table)?;
    write_files(rt, folder, &table)?;
    Ok(0)
}

/// Draws the keys of all parties.
fn drawn_table<S: Read>(
    alloc: Global,
    source: &mut S,
    settings: &KeysSettings<'_>,
) -> Result<KeyTable, Failure>
    requires { IsLawfulKeys settings.now }
    ensures size { IfOk result (λ table. (table.validators ≡ settings.now.validators) × (table.clients ≡ settings.now.clients)) }
    ensures drawn { IfOk result (λ table. Consumes (S.remaining source.old) (S.remaining source.new) (flat_map (λ key. key) table.keys)) }
    ensures failed { IfErr result IsUndrawn }
{
    KeyTable::draw(alloc, source, settings.validators, settings.clients).map_err(failure_of)
}

/// How many parties there are.
fn count_of(table: &KeyTable) -> u16
    ensures { result ≡ table.now.validators + table.now.clients }
{
    table.validators() + table.clients()
}

/// The party at this place: the validators come first, and then the clients.
fn party_at(table: &KeyTable, place: u16) -> Party
    requires { place < table.now.validators + table.now.clients }
    ensures party { result ≡ party_at table.now.validators place }
    ensures known { IsParty table.now result }
{
    let validators = table.validators();
    if place < validators {
        Party::Validator(place)
    } else {
        Party::Client(place - validators)
    }
}

/// The name of a party's key file.
fn name_of(alloc: Global, folder: &str, party: Party) -> Result<PathBuf, AllocError>
    ensures { IfOk result (λ name. path_buf_bytes name ≡ file_name folder.now party) }
{
    let file = format!(in alloc; "{party}.keys")?;
    Path::new(folder).join(alloc, &file)
}

/// Looks whether no name of a key file is taken yet.
fn want_no_files<R: Files + AllocGlobal>(
    rt: &R,
    folder: &str,
    table: &KeyTable,
) -> Result<(), Failure>
    ensures { IfErr result IsUnwritten }
{
    for place in 0..count_of(table) {
        want_no_file(rt, folder, party_at(table, place))?;
    }
    Ok(())
}

/// Looks whether the name of a party's key file is not taken yet.
fn want_no_file<R: Files + AllocGlobal>(rt: &R, folder: &str, party: Party) -> Result<(), Failure>
    ensures { IfErr result IsUnwritten }
{
    let Ok(name) = name_of(rt.alloc(), folder, party) else {
        return Err(Failure::OutOfMemory);
    };
    want_nothing(fs::symlink_metadata(rt, &name))
}

/// Looks whether there is nothing where this was found.
fn want_nothing(found: io::Result<Metadata>) -> Result<(), Failure>
    ensures free { IsOk result ↔ IsErrAnd found (λ error. error_kind error ≡ ErrorKind.NotFound) }
    ensures failed { IfErr result IsUnwritten }
{
    match found {
        Ok(_) => Err(Failure::Keys(KeysTrouble::Unwritten)),
        Err(error) if error.kind() == ErrorKind::NotFound => Ok(()),
        Err(error) => Err(unwritten(&error)),
    }
}

/// Writes the key file of each party.
fn write_files<R: Files + AllocGlobal>(
    rt: &R,
    folder: &str,
    table: &KeyTable,
) -> Result<(), Failure>
    ensures { IfErr result IsUnwritten }
{
    for place in 0..count_of(table) {
        let party = party_at(table, place);
        let mut file = make_file(rt, folder, party)?;
        write_text(rt.alloc(), table, party, &mut file)?;
    }
    Ok(())
}

/// How a key file is opened: it is made, and has its permissions from then on.
fn opening() -> OpenOptions
    ensures written { asks_write result ≡ true }
    ensures made { asks_create_new result ≡ true }
{
    let mut options = OpenOptions::new();
    options.mode(OWNER_ALONE);
    options.write(true).create_new(true);
    options
}

/// Makes an empty key file.
fn make_file<R: Files + AllocGlobal>(rt: &R, folder: &str, party: Party) -> Result<R::File, Failure>
    ensures { IfErr result IsUnwritten }
{
    let Ok(name) = name_of(rt.alloc(), folder, party) else {
        return Err(Failure::OutOfMemory);
    };
    opening().open(rt, &name).map_err(|error| unwritten(&error))
}

/// Writes the text of a party's key file.
fn write_text<W: Write>(
    alloc: Global,
    table: &KeyTable,
    party: Party,
    out: &mut W,
) -> Result<(), Failure>
    requires { IsParty table.now party }
    ensures text { OnOk result (GainsFile table.now party (W.contents out.old) (W.contents out.new)) }
    ensures failed { IfErr result IsUnwritten }
{
    let Ok(text) = table.file_of(alloc, party) else {
        return Err(Failure::OutOfMemory);
    };
    out.write_all(text.as_bytes())
        .map_err(|error| unwritten(&error))
}

//! The files of a configuration.

ghost use Rattle.std.specs.Prelude.{◌≡◌, IfOk};
ghost use Rattle.std.specs.List.{list_all};
ghost use Rattle.toml.specs.View.{table_view};
ghost use Rattle.pcm_config.specs.Configs.{ReadsFiles};
ghost use Rattle.pcm_config.specs.Files.{files_in, files_of, is_file, is_file_name, is_name_byte, is_named};
ghost use Rattle.pcm_config.specs.Judgements.{required};
ghost use Rattle.pcm_config.specs.Lookups.{entries_of, members_seen};
ghost use Rattle.pcm_config.specs.declared.fault.ConfigKind.TheVariants.{Kind};
ghost use Rattle.pcm_config.specs.declared.place.ConfigPlace.TheVariants.{Files};

use crate::fault::refused;
use crate::{ConfigFault, ConfigKind, ConfigPlace, FilePath, FilePaths, Name};
use std::alloc::{AllocError, Global};
use toml::Table;

/// How many bytes the name of a file has at most.
pub const FILE_NAME_BYTES: usize = 32;

// The files of their table, in the byte order of their names.
pub(crate) fn files_in(alloc: Global, table: Option<&Table>) -> Result<FilePaths, ConfigFault>
    ensures { ReadsFiles result (files_in (members_seen table.entry)) }
{
    let files = files_of(alloc, table)?;
    if !are_files(files.as_slice()) {
        return Err(refused(ConfigKind::Name, ConfigPlace::Files));
    }
    Ok(files)
}

// The files of their table, if it is there. Each path is a text.
fn files_of(alloc: Global, table: Option<&Table>) -> Result<FilePaths, ConfigFault>
    ensures { ReadsFiles result (required Kind Files (files_of (entries_of (members_seen table.entry)))) }
{
    match table {
        Some(table) => paths_of(alloc, table),
        None => Ok(FilePaths::new(Vec::new(alloc))),
    }
}

fn paths_of(alloc: Global, table: &Table) -> Result<FilePaths, ConfigFault>
    ensures { ReadsFiles result (required Kind Files (files_of (entries_of (table_view table.now)))) }
{
    let mut files = Vec::new(alloc);
    for (name, path) in table {
        let Some(path) = path.as_str() else {
            return Err(refused(ConfigKind::Kind, ConfigPlace::Files));
        };
        files.push(file_path(alloc, name.as_str(), path)?)?;
    }
    Ok(FilePaths::new(files))
}

fn file_path(alloc: Global, name: &str, path: &str) -> Result<FilePath, AllocError>
    ensures { IfOk result (λ file. file ≡ record { name = name.now; path = path.now }) }
{
    Ok(FilePath {
        name: Name::new(alloc, name)?,
        path: Name::new(alloc, path)?,
    })
}

fn are_files(files: &[FilePath]) -> bool
    ensures { result ≡ list_all is_file files.now }
{
    files.iter().all(is_file)
}

fn is_file(file: &FilePath) -> bool
    ensures { result ≡ is_file file.now }
{
    is_file_name(file.name.as_str().as_bytes()) && !file.path.as_str().is_empty()
}

fn is_file_name(name: &[u8]) -> bool
    ensures { result ≡ is_file_name name.now }
{
    !name.is_empty() && name.len() <= FILE_NAME_BYTES && are_name_bytes(name)
}

fn are_name_bytes(name: &[u8]) -> bool
    ensures { result ≡ list_all is_name_byte name.now }
{
    name.iter().all(|byte| is_name_byte(*byte))
}

fn is_name_byte(byte: u8) -> bool
    ensures { result ≡ is_name_byte byte }
{
    byte.is_ascii_lowercase() || byte.is_ascii_digit() || byte == b'_'
}

// Whether a file has this name.
pub(crate) fn is_named(files: &[FilePath], name: &str) -> bool
    ensures { result ≡ is_named files.now name.now }
{
    files.iter().any(|file| file.name.as_str() == name)
}

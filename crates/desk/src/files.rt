// Files in memory, each name standing once.
ghost use Rattle.std.specs.Prelude.{◌≡◌, OnOk, OnErr, option_map, position, string_bytes};
ghost use Rattle.std.specs.Str.{bytes_eq};
ghost use Rattle.std.specs.FinMap as finite;
ghost use Rattle.desk.specs.Stored.{files_of};

use std::alloc::{AllocError, Global};

#[derive(Drop)]
pub(crate) struct StoredFile {
    name: String,
    bytes: Vec<u8>,
}

// Where the first file of this name stands.
fn place_of(files: &[StoredFile], name: &str) -> Option<usize>
    ensures { result ≡ position (λ f. bytes_eq name.now (string_bytes f.name)) files.now }
{
    files.iter().position(|file| name == file.name.as_str())
}

// The bytes of the file of this name.
pub(crate) fn file_of<'a>(files: &'a [StoredFile], name: &str) -> Option<&'a [u8]>
    ensures { option_map (λ b. b.now) result ≡ finite.get (files_of files.now) name.now }
{
    for file in files {
        if name == file.name.as_str() {
            return Some(&file.bytes);
        }
    }
    None
}

// Puts the bytes into the file of this name.
pub(crate) fn put_file(
    alloc: Global,
    files: &mut Vec<StoredFile>,
    name: &str,
    bytes: &[u8],
) -> Result<(), AllocError>
    ensures ok { OnOk result (files_of files.new.items ≡ finite.insert (files_of files.old.items) name.now bytes.now) }
    ensures err { OnErr result (files.new.items ≡ files.old.items) }
{
    let bytes = bytes.to_vec(alloc)?;
    match place_of(files, name) {
        Some(place) => files[place].bytes = bytes,
        None => {
            let name = String::from_str(alloc, name)?;
            files.push(StoredFile { name, bytes })?;
        }
    }
    Ok(())
}

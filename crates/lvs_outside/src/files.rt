//! Lists of files, written one after the other.

ghost use Rattle.lvs_outside.specs.Files.{AreApart, WritesFiles, files_of};
ghost use Rattle.lvs_outside.specs.Store.{HasRoom};

use crate::{Depot, Failed, write_file};

/// A file that is to be written.
#[derive(Drop)]
pub struct Written {
    pub path: String,
    pub text: Vec<u8>,
}

/// Writes the files in their order, and stops at the first that fails. An empty take is a fault.
/// Takes no memory. Linear in the texts.
pub fn write_files<D: Depot>(files: &[Written], depot: &mut D) -> Result<(), Failed>
    requires room { HasRoom (D.state depot.old) }
    requires apart { AreApart (files_of files.now) }
    ensures { WritesFiles (D.state depot.old) (D.state depot.new) (files_of files.now) result }
{
    let mut rest = files;
    'files: while let [file, more @ ..] = rest {
        if write_file(depot, file.path.as_str(), file.text.as_slice()).is_err() {
            return Err(Failed);
        }
        rest = more;
    }
    Ok(())
}

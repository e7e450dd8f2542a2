// Opening a catalogue file.
ghost use Rattle.std.specs.Prelude.{◌≡◌, []};
ghost use Rattle.catalogue_file.specs.Contents.{contents};
ghost use Rattle.catalogue_file.specs.Opening.{Opens};

use crate::check::check_in;
use crate::fault::FileFault;
use crate::file::FileCatalogue;
use crate::headed::HeadedFile;
use crate::laid::LaidFile;
use crate::layout::SHORT;
use crate::sized::SizedFile;

// The shortest file: no entries.
const EMPTY: [u8; 2] = [0, 0];

// What a file opens as: the catalogue of its entries, or one without entries and why the file is refused. It is no
// `Result`, since a refused file too opens as a catalogue: a rule of the project.
#[derive(Clone, Copy)]
pub struct Opened<'a> {
    pub catalogue: FileCatalogue<'a>,
    pub fault: Option<FileFault>,
}

// The catalogue without entries.
fn empty() -> FileCatalogue<'static>
    ensures { contents result ≡ [] }
{
    let sized = SizedFile {
        layout: SHORT,
        bytes: &EMPTY,
    };
    let headed = HeadedFile { sized };
    let laid = LaidFile { headed };
    FileCatalogue { laid }
}

pub fn open_file(bytes: &[u8]) -> Opened<'_>
    ensures { Opens bytes.now result }
{
    match check_in(SHORT, bytes) {
        Ok(catalogue) => Opened {
            catalogue,
            fault: None,
        },
        Err(fault) => Opened {
            catalogue: empty(),
            fault: Some(fault),
        },
    }
}

// The title half of an entry: the 16 bytes of the title table that it occupies. A part of another length is left as it is.
ghost use Rattle.std.specs.Prelude.{◌≡◌};
ghost use Rattle.formats.specs.Part.{replaced};
ghost use Rattle.formats.specs.Half.{wiped};
ghost use Rattle.formats.specs.Title.{cci_of, title_half};

use crate::facts::ContentId;
use crate::{half, table};

pub fn cci(title: &[u8]) -> u64
    ensures { result ≡ cci_of title.now }
{
    u64::from(table::byte(title, 0) & 3)
}

// Writes a title half, usable from then on.
pub fn write(title: &mut [u8], cci: u64, key: u64, content: ContentId)
    ensures { title.new ≡ replaced 16 (title_half cci key content.0) title.old }
{
    if title.len() != 16 {
        return;
    }
    half::write(title, (cci & 3) as u8, key, content);
}

// Writes the filler over bytes 0 to 7 and clears the flag. Every other bit stays.
pub fn wipe(title: &mut [u8], filler: u64)
    ensures { title.new ≡ replaced 16 (wiped title.old filler) title.old }
{
    if title.len() != 16 {
        return;
    }
    half::wipe(title, filler);
}

// Whether a record handed back is sound: its parts are, as `soundness` tells.
ghost use Rattle.std.specs.Prelude.{◌≡◌};
ghost use Rattle.meaning.specs.Soundness.{sound};
ghost use Rattle.recorder.specs.Filter.{record_in};

use crate::{Filter, extent_of};
use soundness::parts_sound;

// Whether a record is sound with rooms of these lengths.
pub fn is_sound(f: Filter, work: usize, total: usize, map_length: usize) -> bool
    ensures { result ≡ sound (record_in f) work total map_length }
{
    parts_sound(
        f.limits,
        f.options,
        f.held_count,
        extent_of(f),
        &f.kept,
        work,
        total,
        map_length,
    )
}

// Wishes by name, for those who choose. Over the definitions of `meaning`, specs/Wishes.antt.
ghost use Rattle.std.specs.Prelude.{◌≡◌};
ghost use Rattle.meaning.specs.Wishes.{captions_only};

use meaning::{Options, Service};

// Captions only, with all signalling but EIT: media of captions pass, and of what no list names; all other assets and carousels are left out
// of tables and stream.
pub fn captions_only(service: Service) -> Options
    ensures { result ≡ captions_only service }
{
    Options {
        service,
        caption: true,
        carousel: false,
        eit: false,
        other: false,
    }
}

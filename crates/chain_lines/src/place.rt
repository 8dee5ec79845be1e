// The line for a place that has no chain.
ghost use Rattle.std.specs.Prelude.{◌≡◌};
ghost use Rattle.text.specs.Text.{clip};
ghost use Rattle.chain_lines.specs.Place.{known_text, beyond_text};

use text::text::Text;

// A place that is known.
pub fn known(p: u32) -> Text
    ensures { result ≡ clip (known_text p) }
{
    Text::new()
        .add_place(p)
        .add(b" (")
        .add_decimal(p)
        .add(b") is known")
}

// A place beyond the map, which has so many.
pub fn beyond(p: u32, places: usize) -> Text
    ensures { result ≡ clip (beyond_text p places) }
{
    Text::new()
        .add(b"place ")
        .add_decimal(p)
        .add(b" is beyond the map, which has ")
        .add_count(places)
        .add(b" places")
}

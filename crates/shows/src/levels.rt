// The levels of a line, for a person to read.
ghost use Rattle.std.specs.Prelude.{◌≡◌, codes};
ghost use Rattle.line.specs.declared.level.Level.TheVariants.{Space, Mark};

use line::Level;

// The name of a level. No Display: neither the trait nor `Level` is of this crate.
pub fn level_name(level: Level) -> &'static str
    ensures space { level ≡ Space → result.now ≡ codes "space" }
    ensures mark { level ≡ Mark → result.now ≡ codes "mark" }
{
    match level {
        Level::Space => "space",
        Level::Mark => "mark",
    }
}

// Doors that tell whether a guess is right, for the comparison with the Rust to count (compare/). No program needs them.
#![tactic(auto)]

ghost use Rattle.std.specs.Prelude.{◌≡◌};
ghost use Rattle.root.specs.Inner.{Guess};
ghost use Rattle.root.specs.Guess.{guess_of};
ghost use Rattle.guesses.specs.Guesses.{guess_look_of};

use sheet::Sheet;

// The bits of the root of x where its estimate is sure, else 0.
#[unsafe(no_mangle)]
pub extern "C" fn guess_root(x: f64) -> u64
    ensures { Guess x result × (result ≡ guess_of x) }
{
    root::guess(x).unwrap_or(0)
}

// Whether a look at the spot is in the column and the row that the index guesses, 1, or tries each patch, 0; 100 for a sheet that is refused.
// Of sheets with few patches, which have boxes instead of columns and rows, it tells nothing.
#[unsafe(no_mangle)]
#[tactic(auto, unfolding(crate::specs::Guesses::guess_look_of))]
pub extern "C" fn guess_look(sheet: &[u8], x: f64, z: f64) -> u32
    ensures { result ≡ guess_look_of sheet.now x z }
{
    let Ok(sheet) = Sheet::checked(sheet) else {
        return 100;
    };
    let mut index = [0u64; index::INDEX_WORDS];
    index::make_index(&sheet, &mut index);
    u32::from(index::is_guessed(&index, x, z))
}

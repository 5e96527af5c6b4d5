// Chains of pairs: the rows of the parts.
ghost use Rattle.std.specs.Prelude.{◌≡◌};
ghost use Rattle.forms.specs.Forms.{three_of, four_of};

use crate::leaves;

// Pair X (Pair Y Z).
#[tactic(auto, unfolding(crate::specs::Forms::three_of))]
pub fn three_of(file: &[u8], r: u16) -> Option<(u16, u16, u16)>
    ensures { result ≡ three_of file.now r }
{
    let (x, rest) = leaves::pair_of(file, r)?;
    let (y, z) = leaves::pair_of(file, rest)?;
    Some((x, y, z))
}

// Pair W (Pair X (Pair Y Z)).
#[tactic(auto, unfolding(crate::specs::Forms::four_of))]
pub fn four_of(file: &[u8], r: u16) -> Option<(u16, u16, u16, u16)>
    ensures { result ≡ four_of file.now r }
{
    let (w, rest) = leaves::pair_of(file, r)?;
    let (x, y, z) = three_of(file, rest)?;
    Some((w, x, y, z))
}

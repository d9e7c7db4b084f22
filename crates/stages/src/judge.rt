// The stages before the cost, one after another: 1 to 7; 8 and 9; 10; 11.
ghost use Rattle.std.specs.Prelude.{◌≡◌};
ghost use Rattle.stages.specs.Judge.{judged};

use crate::stores::stores;
use crate::types::types;
use reading::structure::structure;
use scoping::scope::scope;
use word::Refusal;

// The first fault in the order of the stages, of any words.
#[tactic(auto, unfolding(script::specs::Stage::or_else))]
pub fn judge(table: &[u32]) -> Result<(), Refusal>
    ensures { result ≡ judged table.now }
{
    structure(table)?;
    scope(table)?;
    types(table)?;
    stores(table)
}

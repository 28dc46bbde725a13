//! Lists that grow.
ghost use Rattle.std.specs.Prelude.{◌≡◌, [], ◌∷◌, ◌++◌, IfOk};

use kp_base::{Items, NoMemory};

/// The items with one more behind them.
pub(crate) fn with_last<T: Drop>(items: Items<T>, item: T) -> Result<Items<T>, NoMemory>
    ensures { IfOk result (λ all. all ≡ items ++ item ∷ []) }
{
    let mut items = items.into_vec();
    items.push(item)?;
    Ok(Items::from_vec(items))
}

//! The refusals that a hub kept.
ghost use Rattle.std.specs.Prelude.{◌≡◌};
ghost use Rattle.std.specs.List.{list_any};
ghost use Rattle.kp_choice_defs.specs.Names.{same_chain_key};
ghost use Rattle.kp_live.specs.Runs as spec;

use kp_hub::Refusal;
use kp_types::{ChainKey, Clash};

/// The clash for which a sync was refused, where a refusal that was kept has it; else that of the
/// first one. It is looked for behind the place that was found last, since the refusals of a stream
/// stand in its order, and then among all.
pub(crate) fn kept_clash<'a>(
    refusals: &'a [Refusal],
    clash: &'a Clash,
    found: &mut usize,
) -> &'a Clash
    ensures { result.now ≡ spec.kept_clash refusals.now clash.now }
{
    if is_kept(refusals, clash, found) {
        return clash;
    }
    match refusals.first() {
        Some(first) => &first.clash,
        None => clash,
    }
}

/// Whether a refusal has this clash.
fn is_kept(refusals: &[Refusal], clash: &Clash, found: &mut usize) -> bool
    ensures { result ≡ list_any (λ r. spec.same_clash r.clash clash.now) refusals.now }
{
    let from = (*found).min(refusals.len());
    let (_, rest) = refusals.split_at(from);
    match rest
        .iter()
        .position(|refusal: &Refusal| same_clash(&refusal.clash, clash))
    {
        Some(place) => {
            *found = from.saturating_add(place).saturating_add(1);
            true
        }
        None => refusals
            .iter()
            .any(|refusal: &Refusal| same_clash(&refusal.clash, clash)),
    }
}

/// Whether two clashes are of the same chains.
fn same_clash(a: &Clash, b: &Clash) -> bool
    ensures { result ≡ spec.same_clash a.now b.now }
{
    a.name == b.name && (same_key(&a.first, &b.first) && same_key(&a.second, &b.second))
}

/// Whether two keys are the same.
fn same_key(a: &ChainKey, b: &ChainKey) -> bool
    ensures { result ≡ same_chain_key a.now b.now }
{
    a == b
}

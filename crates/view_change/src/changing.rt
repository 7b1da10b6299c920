// A view with a logger more or less, stored in the part of label and view.
ghost use Rattle.logger_view.specs.Stored.{with_view};
ghost use Rattle.spin_model.specs.Spun.{volume_of, state_of, token_volume};
ghost use Rattle.std.specs.Prelude.{◌≡◌, ◌≢◌, ◌↔◌, ◌⊎◌, ◌<◌, ◌≤◌, ℕ, List, Some, option_map, IfOk, IfErr, IsErrOf, IsSome};
ghost use Rattle.view_change.specs.Changes.{Allows, Answers, FailsInStore, IsUnwritten, MayShow, RefusesView, changed, id_of};
ghost use Rattle.view_change.specs.declared.answers.Change.TheVariants as asked;
ghost use Rattle.wol_disk.specs.Disk.{Block, Values, only, reads, LeavesOnly, Rose, IsImageOf};
ghost use Rattle.wol_model.specs.Heads.{IsViewList};

use crate::{Change, ChangeRefusal};
use arrayvec::ArrayVec;
use log_layout::View;
use logger_view::{load, store_view};
use spin_model::{Awake, Spun};
use wol_disk::Disk;

// The view with this logger behind the others.
fn with_logger(view: &View, id: u32) -> Result<View, ChangeRefusal>
    ensures ok { IfOk result
        (λ new. Allows view.now (asked.Add id) × (new ≡ changed (asked.Add id) view.now)) }
    ensures err { IfErr result (RefusesView view.now (asked.Add id)) }
{
    let ids = view.ids();
    if ids.contains(&id) {
        return Err(ChangeRefusal::Already { id });
    }
    if ids.len() == View::MOST {
        return Err(ChangeRefusal::ViewFull);
    }
    let Ok(mut all) = ArrayVec::<u32, 16>::try_from(ids) else {
        // A view has at most sixteen.
        unreachable!()
    };
    all.push(id);
    match View::new(&all) {
        Some(new) => Ok(new),
        None => unreachable!(),
    }
}

// The view without this logger.
fn without_logger(view: &View, id: u32) -> Result<View, ChangeRefusal>
    ensures ok { IfOk result
        (λ new. Allows view.now (asked.Remove id) × (new ≡ changed (asked.Remove id) view.now)) }
    ensures err { IfErr result (RefusesView view.now (asked.Remove id)) }
{
    let ids = view.ids();
    if !ids.contains(&id) {
        return Err(ChangeRefusal::NotThere { id });
    }
    let mut others: ArrayVec<u32, 16> = ArrayVec::new();
    for other in ids {
        if *other != id {
            others.push(*other);
        }
    }
    match View::new(&others) {
        Some(new) => Ok(new),
        None => unreachable!(),
    }
}

// The view with the change.
fn changed_view(view: &View, change: &Change) -> Result<View, ChangeRefusal>
    ensures ok { IfOk result
        (λ new. Allows view.now change.now × (new ≡ changed change.now view.now)) }
    ensures err { IfErr result (RefusesView view.now change.now) }
{
    match change {
        Change::Add(id) => with_logger(view, *id),
        Change::Remove(id) => without_logger(view, *id),
    }
}

/// Loads the view of the volume `own`, and stores it with the change, where there are so many volumes. Answers the new view.
///
/// Refused in this order: `Unknown` exactly where the logger isn't below `volumes`, and `Itself` exactly where it is `own`;
/// `Damaged` and `Failed` as in a load; `Already` exactly where a logger that is to be added is in the view, and else
/// `ViewFull` exactly where the view has sixteen; `NotThere` exactly where one that is to be taken out isn't in it; `Failed`
/// of the store, after which the new view may be there or not. It takes no memory.
pub fn change<D: Disk>(
    token: &Awake,
    label: &mut Spun<D>,
    own: u32,
    volumes: u32,
    change: &Change,
) -> Result<View, ChangeRefusal>
    requires volume { token_volume token.now ≡ volume_of label.old }
    requires size { (state_of D.state label.old).size ≡ 2 }
    // each answer has its cause
    ensures unknown { IsErrOf result (ChangeRefusal.Unknown (id_of change.now))
        ↔ (volumes ≤ id_of change.now) }
    ensures known { id_of change.now < volumes → (n : ℕ) → IsErrOf result (ChangeRefusal.Unknown n)
        → ⊥ }
    ensures itself { IsErrOf result ChangeRefusal.Itself
        ↔ ((id_of change.now < volumes) × (id_of change.now ≡ own)) }
    ensures answer { (vs : List (Values Block)) → (state_of D.state label.old).values ≡ Some vs
        → Answers own volumes change.now (reads vs) result }
    ensures view { IfOk result IsViewList }
    ensures cause { IsErrOf result ChangeRefusal.Failed
        → Rose (state_of D.state label.old).faults (state_of D.state label.new).faults }
    ensures calm { (IsErrOf result ChangeRefusal.Failed → ⊥)
        → (state_of D.state label.new).faults ≡ (state_of D.state label.old).faults }

    // at every moment within, an image is one at entry, or has the label as it reads and the new view
    ensures any_moment { LeavesOnly (state_of D.state label.old) (state_of D.state label.new)
        (MayShow own change.now (state_of D.state label.old)) }

    // once it is done, each image has both
    ensures stored { IfOk result (λ new.
        (state_of D.state label.new).values
        ≡ option_map (λ vs. only (with_view new (reads vs)))
        (state_of D.state label.old).values) }

    // and where it is refused for what was asked or for what was read, nothing was written
    ensures unwritten { IfErr result (λ e. e ≢ ChangeRefusal.Failed
        → IsUnwritten (state_of D.state label.old) (state_of D.state label.new)) }
    // nor where the load failed; a store is begun only behind one that didn't
    ensures failed { IsErrOf result ChangeRefusal.Failed
        → IsUnwritten (state_of D.state label.old) (state_of D.state label.new)
        ⊎ FailsInStore own change.now (state_of D.state label.old) (state_of D.state label.new) }
    ensures told { IsSome (state_of D.state label.old).values
        → IsSome (state_of D.state label.new).values }
    ensures size { (state_of D.state label.new).size ≡ (state_of D.state label.old).size }
    ensures volume { volume_of label.new ≡ volume_of label.old }
{
    let id = change.id();
    if id >= volumes {
        return Err(ChangeRefusal::Unknown { id });
    }
    if id == own {
        return Err(ChangeRefusal::Itself);
    }
    let (_, view) = load(token, label, own)?;
    let new = changed_view(&view, change)?;
    match store_view(token, label, &new) {
        Ok(()) => Ok(new),
        Err(_) => Err(ChangeRefusal::Failed),
    }
}

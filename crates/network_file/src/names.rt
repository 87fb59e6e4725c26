//! Names and their numbers.
ghost use Rattle.std.specs.Prelude.{◌≡◌, ◌+◌, ◌^◌, ◌<◌, ◌≤◌, [], ◌∷◌, ◌++◌, Some, length, slice_get, IfSome, OnOk, IfOk};
ghost use Rattle.indexmap.specs.IndexSet.{index_set_len};
ghost use Rattle.network_file.specs.Fault.{Gives};
ghost use Rattle.network_file.specs.Names.{new_name, number_in};

use crate::fault::{NetFault, Place};
use coord_model::{Key, Name, NetKind};
use indexmap::IndexSet;

/// Names in the order of their numbers.
pub(crate) type Names = IndexSet<Name>;

/// Adds a name that none before has.
#[tactic(auto, unfolding(crate::specs::Names::new_name))]
pub(crate) fn add_new(names: &mut Names, place: Place, name: Name) -> Result<(), NetFault>
    ensures exact { Gives (λ done. done) result (new_name place names.old.keys name) }
    ensures added { OnOk result (names.new.keys ≡ names.old.keys ++ name ∷ []) }
{
    if !names.insert(name)? {
        return Err(place.fault(NetKind::DoubleName, Key::Name));
    }
    Ok(())
}

/// The number of a name.
pub(crate) fn number_in(names: &Names, name: Name) -> Option<u16>
    requires { length names.now.keys ≤ 2 ^ 16 }
    ensures exact { result ≡ number_in names.now.keys name }
    ensures within { IfSome result (λ number. number < length names.now.keys) }
    ensures stored { IfSome result (λ number. slice_get names.now.keys number ≡ Some name) }
{
    let number = names.get_index_of(&name)?;
    Some(number as u16)
}

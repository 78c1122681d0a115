//! Values that no watch observes any longer are let go, and their changes are told no longer.

ghost use Rattle.std.specs.Prelude.{◌≡◌, ◌≤◌, List, IfOk};
ghost use Rattle.std.specs.List.{AllByRecursion};
ghost use Rattle.txn_lang.specs.Short.{IsShortAddress};
ghost use Rattle.client_watches.specs.Watching as spec;
ghost use Rattle.client_watches.specs.Keeping.{Keeps};
ghost use Rattle.client_watches.specs.Lines.{Plays};
ghost use Rattle.client_watches.specs.Lines as lines;

use crate::error::WatchError;
use crate::watching::{AddressList, Watching};
use docc_prepare::Backend;
use rdt_types::Address;
use std::alloc::Global;
use std::mem::replace;

/// Whether a value is held that no watch observes.
fn is_idle(watching: &Watching, address: &Address) -> bool
    ensures { result ≡ spec.is_idle watching.now address.now }
{
    watching.cache.get(address).is_some() && !watching.watches.observes(address)
}

/// Lets go what is held at an address, where no watch observes it.
fn drop_one<B: Backend>(
    backend: &mut B,
    watching: &mut Watching,
    address: &Address,
) -> Result<(), WatchError>
    requires { IsShortAddress address.now }
    ensures plays { Plays B.known B.goes backend.old (lines.drop_one watching.old address.now)
        result (λ u. watching.new) backend.new }
    ensures values { IfOk result (λ u. spec.IsButForValues watching.old watching.new) }
    ensures seen { (B.known backend.old).seen ≤ (B.known backend.new).seen }
    ensures home { B.home backend.new ≡ B.home backend.old }
{
    if !is_idle(watching, address) {
        return Ok(());
    }
    backend.unsubscribe(address)?;
    watching.cache.release(address);
    Ok(())
}

/// Lets go what is held at addresses, where no watch observes it.
fn drop_each<B: Backend>(
    backend: &mut B,
    watching: &mut Watching,
    loose: &[Address],
) -> Result<(), WatchError>
    requires { AllByRecursion IsShortAddress loose.now }
    ensures plays { Plays B.known B.goes backend.old (lines.drop_each loose.now watching.old) result
        (λ u. watching.new) backend.new }
    ensures values { IfOk result (λ u. spec.IsButForValues watching.old watching.new) }
    ensures seen { (B.known backend.old).seen ≤ (B.known backend.new).seen }
    ensures home { B.home backend.new ≡ B.home backend.old }
{
    for address in loose {
        drop_one(backend, watching, address)?;
    }
    Ok(())
}

/// Lets go what is held at the loose addresses, where no watch observes it. None is loose then.
pub(crate) fn drop_idle<B: Backend>(
    alloc: Global,
    backend: &mut B,
    watching: &mut Watching,
) -> Result<(), WatchError>
    requires { Keeps (B.known backend.old) watching.old }
    ensures plays { Plays B.known B.goes backend.old (lines.drop_idle watching.old) result
        (λ u. watching.new) backend.new }
    ensures keeps { IfOk result (λ u. Keeps (B.known backend.new) watching.new) }
    ensures watches { IfOk result (λ u. watching.new.watches ≡ watching.old.watches) }
    ensures home { B.home backend.new ≡ B.home backend.old }
{
    let loose = replace(&mut watching.loose, AddressList::new(alloc));
    drop_each(backend, watching, loose.as_slice())
}

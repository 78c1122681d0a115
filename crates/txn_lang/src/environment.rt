//! Names that are bound: each to a type where a body is checked, and to an item where it runs.

ghost use Rattle.std.specs.Prelude.{◌≡◌, ◌<◌, ◌++◌, ◌∷◌, ◌-◌, [], length, take, IsOk, OnOk, OnErr};
ghost use Rattle.std.specs.Option.{option_copied};
ghost use Rattle.std.specs.Bool.{OnTrue};
ghost use Rattle.std.specs.FinMap as fin;
ghost use Rattle.txn_lang.specs.Bindings.{bound};
ghost use Rattle.txn_lang.specs.code.Places.{place_bound};

use plain_data::{Sequence, Text, TextMap};
use std::alloc::{AllocError, Global};
use std::marker::Model;

/// A name that was bound, with the place of the binding that it hides.
#[derive(Debug, Drop)]
pub(crate) struct Binding<V> {
    pub name: Text,
    pub value: V,
    pub hidden: Option<usize>,
}

/// Names in the order of their binding, each with what it is bound to. A name is found by halving, and a block ends without a
/// copy of what it leaves.
#[derive(Debug, Drop)]
pub struct Environment<V> {
    /// The place of the newest binding of each name that was ever bound, or none where it isn't bound any more.
    places: TextMap<Option<usize>>,
    bindings: Sequence<Binding<V>>,
}

impl<V> Model for Environment<V> {
    ghost use Rattle.std.specs.Prelude.{List};
    ghost use Rattle.std.specs.Coded.{coded_list, coded×, coded_ℕ};
    ghost use Rattle.plain_data.specs.Texts.{Bytes};
    ghost use Rattle.txn_lang.specs.code.Places.{names_of, Keeps};

    ghost Value = { List (Bytes × V) };

    ghost coded = { coded_list (coded× (coded_list coded_ℕ) V.code) };

    ghost view = { λ e. names_of e.bindings };

    ghost invariant = { λ e. Keeps e.places e.bindings };
}

/// Keeps the place of a name's newest binding, or that it isn't bound any more. A name that was ever bound takes no memory.
fn keep(
    places: &mut TextMap<Option<usize>>,
    name: &Text,
    place: Option<usize>,
) -> Result<(), AllocError>
    ensures ok { OnOk result (places.new ≡ fin.insert places.old name.now place) }
    ensures err { OnErr result (places.new ≡ places.old) }
    ensures there { OnTrue (fin.contains_key places.old name.now) (IsOk result) }
{
    if places.replace(name, place) {
        return Ok(());
    }
    places.insert(name.clone()?, place)
}

impl<V: Drop> Environment<V> {
    /// No names.
    pub fn new(alloc: Global) -> Environment<V>
        ensures { result ≡ [] }
    {
        Environment {
            places: TextMap::new(alloc),
            bindings: Sequence::new(alloc),
        }
    }

    /// How many names were bound, one that is bound twice counted twice.
    pub fn len(&self) -> usize
        ensures { result ≡ length self.now }
    {
        self.bindings.len()
    }

    /// The place of a name's newest binding, if it is bound.
    fn place_of(&self, name: &Text) -> Option<usize>
        ensures { result ≡ place_bound self.now name.now }
    {
        match self.places.get(name) {
            Some(found) => *found,
            None => None,
        }
    }

    /// What a name is bound to, lent, if it is.
    pub fn get(&self, name: &Text) -> Option<&V>
        ensures { option_copied result ≡ bound self.now name.now }
    {
        match self.place_of(name) {
            Some(place) => match self.bindings.get(place) {
                Some(binding) => Some(&binding.value),
                None => None,
            },
            None => None,
        }
    }

    /// Binds a name, which hides what it was bound to before. For want of memory the value is dropped.
    pub fn bind(&mut self, name: &Text, value: V) -> Result<(), AllocError>
        ensures ok { OnOk result (self.new ≡ self.old ++ (name.now, value) ∷ []) }
        ensures err { OnErr result (self.new ≡ self.old) }
    {
        let hidden = self.place_of(name);
        let place = self.bindings.len();
        let own = name.clone()?;
        self.bindings.push(Binding {
            name: own,
            value,
            hidden,
        })?;
        match keep(&mut self.places, name, Some(place)) {
            Ok(()) => Ok(()),
            Err(error) => {
                self.bindings.pop();
                Err(error)
            }
        }
    }

    /// Forgets the name that was bound last, which is again bound to what it was before.
    fn forget_last(&mut self) -> Result<(), AllocError>
        requires { 0 < length self.old }
        ensures ok { OnOk result (self.new ≡ take (length self.old - 1) self.old) }
        ensures err { OnErr result (self.new ≡ self.old) }
    {
        let last = self.bindings.len() - 1;
        let Some(binding) = self.bindings.get(last) else {
            return Ok(());
        };
        keep(&mut self.places, &binding.name, binding.hidden)?;
        self.bindings.truncate(last);
        Ok(())
    }

    /// Forgets names, the newest first, until so many are left.
    pub fn truncate(&mut self, count: usize) -> Result<(), AllocError>
        ensures ok { OnOk result (self.new ≡ take count self.old) }

        // Where memory is refused in the middle, the names below the count stand too.
        ensures kept { take count self.new ≡ take count self.old }
    {
        while self.len() > count {
            self.forget_last()?;
        }
        Ok(())
    }
}

//! Names, and where each of them stands.
ghost use Rattle.std.specs.Prelude.{◌≡◌, ◌++◌, ℕ, List, [], IfErr, IfOk, IfSome, None, OnOk, Some};
ghost use Rattle.std.specs.Prelude.{bytes_eq};
ghost use Rattle.std.specs.Map.{update};
ghost use Rattle.std.specs.Option.{option_and_then};
ghost use Rattle.aig_fault.specs.Stopping.{StopsFor};
ghost use Rattle.aig_pairing.specs.ByNames.{in_order_of, value_named};
ghost use Rattle.aig_pairing.specs.NameFaults.{missing_fault, name_fault, wrong_name};
ghost use Rattle.aig_pairing.specs.Names.{place_named};
ghost use Rattle.aig_pairing.specs.Parts.Places.{AreAt, place_in};

use crate::names::Name;
use crate::paired::Paired;
use aig_fault::{Kind, Stopped, refused};
use std::alloc::{AllocError, Global};
use std::collections::BTreeMap;
use std::marker::Model;

/// Names with where they stand, so that the place of a name is found without going through all of
/// them. To contracts it is the list of the names.
#[derive(Drop)]
pub(crate) struct Index<'a> {
    names: Vec<Option<Name<'a>>>,
    places: BTreeMap<&'a [u8], usize>,
}

impl<'a> Model for Index<'a> {
    ghost use Rattle.std.specs.Prelude.{List, ℕ, Option};
    ghost use Rattle.aig_pairing.specs.Parts.Places.{AreAt as HaveNamesAt};

    ghost Value = { List (Option (List ℕ)) };

    ghost view = { λ s. s.names.items };

    ghost invariant = { λ s. HaveNamesAt s.names.items s.places };
}

/// Keeps where a name stands, and answers what is wrong with it, if anything is.
fn put_place<'a>(
    places: &mut BTreeMap<&'a [u8], usize>,
    name: &Option<Name<'a>>,
    at: usize,
) -> Result<Option<Kind>, AllocError>
    ensures wrong { IfOk result (λ wrong.
        wrong ≡ wrong_name name.now (option_and_then (place_in places.old) name.now)) }
    ensures put { OnOk result (IfSome name.now (λ bytes. (q : List ℕ) →
        place_in places.new q ≡ update bytes_eq (place_in places.old) bytes (Some at) q)) }
{
    let Some(name) = name else {
        return Ok(Some(Kind::NoName));
    };
    match places.insert(name.as_slice(), at)? {
        Some(_) => Ok(Some(Kind::NameTwice)),
        None => Ok(None),
    }
}

/// Where each of these names stands, unless one of them is wrong.
fn places_of<'a>(
    alloc: Global,
    paired: Paired,
    names: &[Option<Name<'a>>],
) -> Result<BTreeMap<&'a [u8], usize>, Stopped>
    ensures places { IfOk result (AreAt names.now) }
    ensures right { OnOk result (name_fault paired [] names.now ≡ None) }
    ensures wrong { IfErr result (StopsFor (λ fault. name_fault paired [] names.now ≡ Some fault)) }
{
    let mut places = BTreeMap::new(alloc);
    for at in 0..names.len() {
        if let Some(kind) = put_place(&mut places, &names[at], at)? {
            return Err(refused(kind, paired.place_of(at), 0));
        }
    }
    Ok(places)
}

impl<'a> Index<'a> {
    /// The names with where they stand, unless one of them is wrong.
    pub(crate) fn new(
        alloc: Global,
        paired: Paired,
        names: Vec<Option<Name<'a>>>,
    ) -> Result<Self, Stopped>
        ensures names { IfOk result (λ index. index ≡ names.entry.items) }
        ensures right { OnOk result (name_fault paired [] names.entry.items ≡ None) }
        ensures wrong { IfErr result (StopsFor (λ fault.
            name_fault paired [] names.entry.items ≡ Some fault)) }
    {
        let places = places_of(alloc, paired, names.as_slice())?;
        Ok(Index { names, places })
    }

    /// The names.
    pub(crate) fn names(&self) -> &[Option<Name<'a>>]
        ensures { result.now ≡ self.now }
    {
        self.names.as_slice()
    }

    /// Where the first thing with the same name stands.
    fn find(&self, name: &Option<Name>) -> Option<usize>
        ensures { result ≡ place_named self.now name.now }
    {
        match name {
            Some(name) => self.places.get(name.as_slice()).copied(),
            None => None,
        }
    }

    /// Refuses the first of the names that is none of the others.
    pub(crate) fn check_there(&self, paired: Paired, others: &Index) -> Result<(), Stopped>
        ensures there { OnOk result (missing_fault paired others.now 0 self.now ≡ None) }
        ensures missing { IfErr result (StopsFor (λ fault.
            missing_fault paired others.now 0 self.now ≡ Some fault)) }
    {
        let names = self.names();
        for at in 0..names.len() {
            if others.find(&names[at]).is_none() {
                return Err(refused(Kind::NoSuchName, paired.place_of(at), 0));
            }
        }
        Ok(())
    }

    /// The value that stands where a name does.
    fn value<T: Copy>(&self, values: &[T], name: &Option<Name>) -> Option<T>
        ensures { result ≡ value_named self.now values.now name.now }
    {
        match self.find(name) {
            Some(at) => values.get(at).copied(),
            None => None,
        }
    }

    /// The values of things with these names, in the order of the wanted names.
    pub(crate) fn in_order_of<T: Copy>(
        &self,
        alloc: Global,
        wanted: &[Option<Name>],
        values: &[T],
    ) -> Result<Vec<T>, AllocError>
        ensures { IfOk result (λ ordered.
            ordered.items ≡ in_order_of wanted.now self.now values.now) }
    {
        let mut ordered = Vec::new(alloc);
        for name in wanted {
            if let Some(value) = self.value(values, name) {
                ordered.push(value)?;
            }
        }
        Ok(ordered)
    }
}

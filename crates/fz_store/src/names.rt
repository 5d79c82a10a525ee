//! Declared names with what they stand for. Each is found by the number that its digits make
//! (`Numbered`), or else in a hash table.

ghost use Rattle.std.specs.Prelude.{◌≡◌, ◌++◌, ◌∷◌, [], IfOk, IfSome, OnErr, OnOk, Some, false, is_none, is_some, length, nat_eq, option_map, true};
ghost use Rattle.std.proofs.Common.{ap, rules};
ghost use Rattle.std.specs.Cmp.Lexicographic.{bytes_decides, nat_list_eq_equiv};
ghost use Rattle.std.specs.Cmp.Rules.{comparing};
ghost use Rattle.std.specs.List.{find, list_any, starts_with, IsDistinct};
ghost use Rattle.std.specs.Str.{bytes_eq};
ghost use Rattle.std.specs.Map.{lookup};
ghost use Rattle.fz_meaning.specs.declared.term.Term.TheVariants.{Fixed, Var};
ghost use Rattle.fz_store.specs.Naming.Declared.{Array as TheArray, Scalar};
ghost use Rattle.fz_store.specs.Names.{is_key, same_key};
ghost use Rattle.fz_store.specs.Naming.{has_text, standing_view, stands_for, IsAmongTerms};
ghost use Rattle.fz_store.specs.Numbered.{IsNumbered};

use crate::numbered::Numbered;
use fz_meaning::{Term, Value};
use indexmap::{Equivalent, IndexSet};
use std::alloc::{AllocError, Global};
use std::hash::{BuildHasherDefault, Hash, Hasher};

/// A name that is looked up. Its bytes are hashed with one call of the hasher, where the hash of a
/// slice makes one for each byte.
#[derive(Clone, Copy)]
pub(crate) struct Text<'a> {
    bytes: &'a [u8],
}

impl PartialEq for Text<'_> {
    ghost eq = { λ a b. bytes_eq a.bytes.now b.bytes.now };

    ghost laws = { Prim.search (comparing, rules) };

    fn eq(&self, other: &Self) -> bool {
        self.bytes == other.bytes
    }
}

impl Eq for Text<'_> {
    ghost laws = { Prim.search (comparing, rules) };
}

impl Hash for Text<'_> {
    ghost hash_input = { λ t. t.bytes.now ∷ [] };

    ghost respects_eq = { λ x y e. ap (λ bytes. bytes ∷ [])
        ((bytes_decides x.bytes.now y.bytes.now).0 e) };

    fn hash<H: Hasher>(&self, state: &mut H) {
        state.write(self.bytes);
    }
}

/// What a declared name cites: a variable, a parameter or an array, by its number. It has two
/// words, so that a look-up seldom waits for memory.
#[derive(Clone, Copy)]
pub(crate) enum Citation {
    Variable(usize),
    Parameter(usize),
    Array(usize),
}

/// A declared name with its citation, side by side, so that a look-up that has read the name has
/// read the citation too. Only the name is hashed and compared.
#[derive(Clone, Copy)]
pub(crate) struct Kept<'a> {
    bytes: &'a [u8],
    citation: Citation,
}

impl PartialEq for Kept<'_> {
    ghost eq = { λ a b. bytes_eq a.bytes.now b.bytes.now };

    ghost laws = { Prim.search (comparing, rules) };

    fn eq(&self, other: &Self) -> bool {
        self.bytes == other.bytes
    }
}

impl Eq for Kept<'_> {
    ghost laws = { Prim.search (comparing, rules) };
}

impl Hash for Kept<'_> {
    ghost hash_input = { λ k. k.bytes.now ∷ [] };

    ghost respects_eq = { λ x y e. ap (λ bytes. bytes ∷ [])
        ((bytes_decides x.bytes.now y.bytes.now).0 e) };

    fn hash<H: Hasher>(&self, state: &mut H) {
        state.write(self.bytes);
    }
}

impl<'b> Equivalent<Kept<'b>> for Text<'_> {
    ghost equivalent = { λ q k. bytes_eq q.bytes.now k.bytes.now };

    ghost respects_hash = { λ q k e. ap (λ bytes. bytes ∷ [])
        ((bytes_decides q.bytes.now k.bytes.now).0 e) };

    ghost respects_eq = { λ q x y. nat_list_eq_equiv.congr q.bytes.now x.bytes.now y.bytes.now };

    fn equivalent(&self, kept: &Kept<'b>) -> bool {
        self.bytes == kept.bytes
    }
}

/// What a name stands for: the variable of a number, a parameter's value, or the array of a number.
#[derive(Clone, Copy)]
pub enum Standing<'m> {
    Variable(usize),
    Parameter(&'m Term),
    Array(usize),
}

/// The names that no cell of `Numbered` has, found by their text.
type Table<'a> = IndexSet<Kept<'a>>;

/// The declared names, in source order. A contract sees the list of them, each with what it stands
/// for.
#[derive(Drop)]
pub struct Names<'a> {
    /// all of them with their citations, in source order
    listed: Vec<Kept<'a>>,
    /// those that are found by number
    numbered: Numbered<'a>,
    /// the others, in a hash table
    others: Table<'a>,
    /// the values of parameters, by their numbers
    parameters: Vec<Term>,
}

impl<'a> std::marker::Model for Names<'a> {
    ghost use Rattle.std.specs.Prelude.{ℕ, List};
    ghost use Rattle.fz_store.specs.Naming.{Declared};
    ghost use Rattle.fz_meaning.specs.of_base.contracts.sets.IntSet as the_set;
    ghost use Rattle.std.specs.Coded.{codes};

    ghost Value = { List (List ℕ × Declared) };

    ghost coded = { Prim.hlevel (codes, the_set.the_row.coded) };

    ghost use Rattle.std.specs.List.{IsDistinct};
    ghost use Rattle.fz_store.specs.Names.{names_view, same_key, AreAmongTerms};
    ghost use Rattle.fz_store.specs.Numbered.{IsNumbered};

    ghost view = { names_view };

    ghost invariant = { λ n. AreAmongTerms n × IsDistinct same_key n.listed.items
        × IsNumbered n.listed.items n.others.keys n.numbered };
}

/// What a citation stands for. The parameters' values are these.
#[inline]
fn standing_of(parameters: &[Term], citation: Citation) -> Standing<'_>
    requires within { IsAmongTerms parameters.now citation }
    ensures stands { standing_view result ≡ stands_for parameters.now citation }
{
    match citation {
        Citation::Variable(number) => Standing::Variable(number),
        Citation::Parameter(number) => Standing::Parameter(&parameters[number]),
        Citation::Array(number) => Standing::Array(number),
    }
}

/// Appends a name, and puts it in the cell of its number or else in the hash table.
fn put<'a>(
    listed: &mut Vec<Kept<'a>>,
    others: &mut Table<'a>,
    numbered: &mut Numbered<'a>,
    name: &'a [u8],
    citation: Citation,
) -> Result<(), AllocError>
    requires new { list_any (is_key name.now) listed.old.items ≡ false }
    requires distinct { IsDistinct same_key listed.old.items }
    requires numbered { IsNumbered listed.old.items others.old.keys numbered.old }
    ensures pushed { OnOk result (listed.new.items ≡ listed.old.items
        ++ record { bytes = name.entry; citation = citation } ∷ []) }
    ensures unchanged { OnErr result (listed.new.items ≡ listed.old.items) }
    ensures distinct { IsDistinct same_key listed.new.items }
    ensures numbered { IsNumbered listed.new.items others.new.keys numbered.new }
{
    listed.reserve(1)?;
    let kept = Kept {
        bytes: name,
        citation,
    };
    if !numbered.note(name, citation, listed.len()) {
        let _ = others.insert(kept)?;
    }
    listed.push_reserved(kept);
    Ok(())
}

/// The citation of a name in the hash table, where it is there.
fn citation_among(others: &Table<'_>, name: &[u8]) -> Option<Citation>
    ensures { result ≡ option_map (λ k. k.citation) (find (is_key name.now) others.now.keys) }
{
    let kept = others.get(Text { bytes: name })?;
    Some(kept.citation)
}

/// A declared name with its citation.
#[tactic(auto, using(crate::proofs::Noted::of_found))]
fn found<'t, 'a>(
    listed: &'t [Kept<'a>],
    others: &'t Table<'a>,
    numbered: &Numbered<'a>,
    name: &[u8],
) -> Option<&'t Kept<'a>>
    requires numbered { IsNumbered listed.now others.now.keys numbered.now }
    ensures { option_map (λ k. k.now) result ≡ find (is_key name.now) listed.now }
{
    match numbered.seat(name) {
        Some(seat) => listed.get(seat),
        None => others.get(Text { bytes: name }),
    }
}

/// Whether a name begins with these bytes.
fn has_front(listed: &[Kept<'_>], front: &[u8]) -> bool
    ensures { result ≡ list_any (λ k. starts_with nat_eq k.bytes.now front.now) listed.now }
{
    listed.iter().any(|kept| kept.bytes.starts_with(front))
}

impl<'a> Names<'a> {
    /// No names, with room for this many.
    pub fn with_capacity(alloc: Global, count: usize) -> Result<Names<'a>, AllocError>
        ensures none { IfOk result (λ n. n ≡ []) }
    {
        Ok(Names {
            listed: Vec::with_capacity(alloc, count)?,
            numbered: Numbered::with_places(alloc, count)?,
            others: IndexSet::with_hasher(alloc, BuildHasherDefault::new()),
            parameters: Vec::new(alloc),
        })
    }

    /// Whether a name is declared.
    #[inline]
    #[tactic(auto, using(crate::proofs::Noted::of_contained))]
    pub fn contains(&self, name: &[u8]) -> bool
        ensures declared { result ≡ is_some (lookup (has_text name.now) self.now) }
    {
        if self.numbered.is_free(name) {
            return false;
        }
        self.numbered.get(name).is_some() || self.others.contains(Text { bytes: name })
    }

    /// What a name stands for, where it is declared.
    #[inline(always)]
    #[tactic(auto, using(crate::proofs::Noted::elsewhere, crate::proofs::Noted::none_stands))]
    pub fn get(&self, name: &[u8]) -> Option<Standing<'_>>
        ensures stands { option_map standing_view result ≡ lookup (has_text name.now) self.now }
    {
        if let Some(citation) = self.numbered.get(name) {
            return Some(standing_of(&self.parameters, citation));
        }
        let citation = citation_among(&self.others, name)?;
        Some(standing_of(&self.parameters, citation))
    }

    /// What a name stands for, where it is declared, with its text in the source.
    #[inline]
    #[tactic(auto, using(crate::proofs::NameTable::of_citation))]
    pub fn look_up(&self, name: &[u8]) -> Option<(&'a [u8], Standing<'_>)>
        ensures stands { option_map (λ f. standing_view f.1) result
            ≡ lookup (has_text name.now) self.now }
        ensures text { IfSome result (λ f. f.0.now ≡ name.now) }
    {
        let kept = found(&self.listed, &self.others, &self.numbered, name)?;
        Some((kept.bytes, standing_of(&self.parameters, kept.citation)))
    }

    /// Whether a declared name begins with these bytes. It goes over all names.
    pub fn begins(&self, front: &[u8]) -> bool
        ensures { result ≡ list_any (λ n. starts_with nat_eq n.0 front.now) self.now }
    {
        has_front(&self.listed, front)
    }

    /// Appends the name of a variable.
    #[tactic(auto, using(crate::proofs::NameTable::new_key))]
    pub fn push_variable(&mut self, name: &'a [u8], number: usize) -> Result<(), AllocError>
        requires new { is_none (lookup (has_text name.now) self.old) ≡ true }
        ensures pushed { OnOk result (self.new ≡ self.old ++ (name.now, Scalar (Var number)) ∷ []) }
    {
        put(
            &mut self.listed,
            &mut self.others,
            &mut self.numbered,
            name,
            Citation::Variable(number),
        )
    }

    /// Appends the name of an array.
    #[tactic(auto, using(crate::proofs::NameTable::new_key))]
    pub fn push_array(&mut self, name: &'a [u8], number: usize) -> Result<(), AllocError>
        requires new { is_none (lookup (has_text name.now) self.old) ≡ true }
        ensures pushed { OnOk result (self.new ≡ self.old ++ (name.now, TheArray number) ∷ []) }
    {
        put(
            &mut self.listed,
            &mut self.others,
            &mut self.numbered,
            name,
            Citation::Array(number),
        )
    }

    /// Appends the name of a parameter, and its value.
    pub fn push_parameter(&mut self, name: &'a [u8], value: Value) -> Result<(), AllocError>
        requires new { is_none (lookup (has_text name.now) self.old) ≡ true }
        ensures pushed { OnOk result (self.new
            ≡ self.old ++ (name.now, Scalar (Fixed value)) ∷ []) }
    {
        let number = self.parameters.len();
        self.parameters.push(Term::Fixed(value))?;
        put(
            &mut self.listed,
            &mut self.others,
            &mut self.numbered,
            name,
            Citation::Parameter(number),
        )
    }
}

//! The lists of items: those that were given back are used again, and where none ever is, a list
//! takes no more memory than its elements need.

ghost use Rattle.std.specs.Prelude.{◌≡◌, []};

use fz_tree::{Basic, Constraint, Decl, Expr, Note, NoteArg};
use std::alloc::Global;

/// The most elements that are moved to an allocation of exactly their size. A longer list is shrunk
/// where it is instead, since while its elements were moved they would take twice their memory.
const MOST_MOVED: usize = 64;

/// The list in an allocation of exactly its size, so that the first allocation is free for the next
/// list. Where there is no memory for that, the list stays as it is.
pub(crate) fn trimmed<T: Drop>(alloc: Global, mut list: Vec<T>) -> Vec<T>
    ensures { result.items ≡ list.items }
{
    if list.len() > MOST_MOVED || list.len() == list.capacity() {
        list.shrink_to_fit();
        return list;
    }
    let Ok(mut exact) = Vec::with_capacity(alloc, list.len()) else {
        return list;
    };
    if exact.append(&mut list).is_ok() {
        exact
    } else {
        list
    }
}

/// Lists that were given back, for the lists to come.
#[derive(Drop)]
pub(crate) struct Spare<T> {
    lists: Vec<Vec<T>>,
}

impl<T: Drop> Spare<T> {
    pub(crate) fn new(alloc: Global) -> Spare<T> {
        Spare {
            lists: Vec::new(alloc),
        }
    }

    /// An empty list.
    pub(crate) fn list(&mut self, alloc: Global) -> Vec<T>
        ensures { result.items ≡ [] }
    {
        match self.lists.pop() {
            Some(mut list) => {
                list.clear();
                list
            }
            None => Vec::new(alloc),
        }
    }

    /// The list, which has all of its elements. Where no list was ever given back, none is to come,
    /// so it is trimmed.
    pub(crate) fn filled(&self, alloc: Global, list: Vec<T>) -> Vec<T>
        ensures { result.items ≡ list.items }
    {
        if self.lists.capacity() > 0 {
            return list;
        }
        trimmed(alloc, list)
    }

    /// Where there is no memory to store the list, it is dropped.
    fn give_back(&mut self, list: Vec<T>) {
        if list.capacity() > 0 {
            let _is_stored = self.lists.push(list).is_ok();
        }
    }
}

/// The lists of items that were given back.
#[derive(Drop)]
pub(crate) struct SpareLists<'a> {
    pub(crate) exprs: Spare<Expr<'a>>,
    pub(crate) basics: Spare<Basic<'a>>,
    pub(crate) notes: Spare<Note<'a>>,
    pub(crate) note_args: Spare<NoteArg<'a>>,
}

impl<'a> SpareLists<'a> {
    pub(crate) fn new(alloc: Global) -> SpareLists<'a> {
        SpareLists {
            exprs: Spare::new(alloc),
            basics: Spare::new(alloc),
            notes: Spare::new(alloc),
            note_args: Spare::new(alloc),
        }
    }

    pub(crate) fn give_back_constraint(&mut self, item: Constraint<'a>) {
        let Constraint {
            name: _,
            args,
            notes,
        } = item;
        self.give_back_exprs(args);
        self.give_back_notes(notes);
    }

    pub(crate) fn give_back_decl(&mut self, item: Decl<'a>) {
        let Decl { notes, value, .. } = item;
        self.give_back_notes(notes);
        if let Some(value) = value {
            self.give_back_expr(value);
        }
    }

    fn give_back_expr(&mut self, expr: Expr<'a>) {
        if let Expr::List(list) = expr {
            self.basics.give_back(list);
        }
    }

    fn give_back_exprs(&mut self, mut exprs: Vec<Expr<'a>>) {
        while let Some(expr) = exprs.pop() {
            self.give_back_expr(expr);
        }
        self.exprs.give_back(exprs);
    }

    fn give_back_notes(&mut self, mut notes: Vec<Note<'a>>) {
        while let Some(note) = notes.pop() {
            self.note_args.give_back(note.args);
        }
        self.notes.give_back(notes);
    }
}

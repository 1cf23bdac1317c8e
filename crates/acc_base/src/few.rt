//! A list that is mostly short, with up to two items in the value itself.

ghost use Rattle.std.specs.Prelude.{◌≡◌, [], ◌∷◌, ◌++◌, ◌<◌, length, IfOk, IfSome, IfNone, OnOk, OnErr};
ghost use Rattle.acc_base.specs.Faults.{OnlyMemory};
ghost use Rattle.acc_base.specs.Lists.{items_of};

use crate::fault::Fault;
use std::alloc::{AllocError, Global};
use std::marker::Model;
use std::mem;

/// A list that is mostly short: up to two items stand in the value itself, more in memory of their own. A contract sees
/// the list.
#[derive(Drop)]
pub struct Few<T> {
    alloc: Global,
    form: Form<T>,
}

#[derive(Drop)]
enum Form<T> {
    Empty,
    One { items: [T; 1] },
    Two { items: [T; 2] },
    Many { items: Vec<T> },
}

impl<T> Model for Few<T> {
    ghost use Rattle.std.specs.Prelude.{List};
    ghost use Rattle.acc_base.specs.Lists.{items_of};

    ghost Value = { List T };

    ghost view = { λ f. items_of f.form };
}

impl<T> Few<T> {
    /// No item. Takes no memory.
    pub fn new(alloc: Global) -> Self
        ensures { result ≡ [] }
    {
        Few {
            alloc,
            form: Form::Empty,
        }
    }

    /// All items, in their order.
    pub fn as_slice(&self) -> &[T]
        ensures { result.now ≡ self.now }
    {
        match &self.form {
            Form::Empty => &[],
            Form::One { items } => items.as_slice(),
            Form::Two { items } => items.as_slice(),
            Form::Many { items } => items.as_slice(),
        }
    }
}

impl<T: Drop> Few<T> {
    /// Puts an item behind the others. It takes memory where they are two or more.
    ///
    /// # Errors
    ///
    /// `AllocError` where memory is refused; then the list is as it was.
    pub fn push(&mut self, item: T) -> Result<(), AllocError>
        ensures items { OnOk result (self.new ≡ self.old ++ item ∷ []) }
        ensures kept { OnErr result (self.new ≡ self.old) }
    {
        match &mut self.form {
            Form::Empty => {
                self.form = Form::One { items: [item] };
                return Ok(());
            }
            Form::Many { items } => {
                return match items.push(item) {
                    Ok(()) => Ok(()),
                    Err(_) => Err(AllocError),
                };
            }
            Form::One { .. } | Form::Two { .. } => {}
        }
        let form = mem::replace(&mut self.form, Form::Empty);
        let (form, pushed) = pushed(self.alloc, form, item);
        self.form = form;
        pushed
    }

    /// Takes the last item out. Takes no memory.
    pub fn pop(&mut self) -> Option<T>
        ensures last { IfSome result (λ x. self.old ≡ self.new ++ x ∷ []) }
        ensures empty { IfNone result ((self.old ≡ []) × (self.new ≡ [])) }
    {
        let form = mem::replace(&mut self.form, Form::Empty);
        let (form, last) = popped(form);
        self.form = form;
        last
    }

    /// Gives back the memory that its items don't need.
    pub fn shrink_to_fit(&mut self)
        ensures { self.new ≡ self.old }
    {
        let form = &mut self.form;
        if let Form::Many { items } = form {
            items.shrink_to_fit();
        }
    }
}

impl<T: Copy> Few<T> {
    /// The items of a slice. It takes memory where they are more than two, for as many.
    ///
    /// # Errors
    ///
    /// `Memory` where memory is refused.
    pub fn from_slice(alloc: Global, items: &[T]) -> Result<Self, Fault>
        ensures items { IfOk result (λ f. f ≡ items.now) }
        ensures missing { OnErr result (2 < length items.now) }
        ensures fault { OnlyMemory result }
    {
        let form = match items {
            [] => Form::Empty,
            [item] => Form::One { items: [*item] },
            [first, second] => Form::Two {
                items: [*first, *second],
            },
            _ => Form::Many {
                items: Vec::from_slice(alloc, items)?,
            },
        };
        Ok(Few { alloc, form })
    }

    /// An equal list. It takes memory as `from_slice` does.
    ///
    /// # Errors
    ///
    /// `Memory` where memory is refused.
    pub fn try_clone(&self) -> Result<Self, Fault>
        ensures equal { IfOk result (λ f. f ≡ self.now) }
        ensures missing { OnErr result (2 < length self.now) }
        ensures fault { OnlyMemory result }
    {
        Few::from_slice(self.alloc, self.as_slice())
    }
}

// The items with one more behind them; those that were there where memory for it is refused.
fn pushed<T: Drop>(alloc: Global, form: Form<T>, item: T) -> (Form<T>, Result<(), AllocError>)
    ensures items { OnOk result.1 (items_of result.0 ≡ items_of form ++ item ∷ []) }
    ensures kept { OnErr result.1 (items_of result.0 ≡ items_of form) }
{
    match form {
        Form::Empty => (Form::One { items: [item] }, Ok(())),
        Form::One { items: [first] } => (
            Form::Two {
                items: [first, item],
            },
            Ok(()),
        ),
        Form::Two {
            items: [first, second],
        } => match Vec::with_capacity(alloc, 4) {
            Err(refused) => (
                Form::Two {
                    items: [first, second],
                },
                Err(refused),
            ),
            Ok(mut items) => {
                items.push_reserved(first);
                items.push_reserved(second);
                items.push_reserved(item);
                (Form::Many { items }, Ok(()))
            }
        },
        Form::Many { mut items } => match items.push(item) {
            Ok(()) => (Form::Many { items }, Ok(())),
            Err(_) => (Form::Many { items }, Err(AllocError)),
        },
    }
}

// All items but the last, and the last.
fn popped<T>(form: Form<T>) -> (Form<T>, Option<T>)
    ensures last { IfSome result.1 (λ x. items_of form ≡ items_of result.0 ++ x ∷ []) }
    ensures empty { IfNone result.1 ((items_of form ≡ []) × (items_of result.0 ≡ [])) }
{
    match form {
        Form::Empty => (Form::Empty, None),
        Form::One { items: [item] } => (Form::Empty, Some(item)),
        Form::Two {
            items: [first, second],
        } => (Form::One { items: [first] }, Some(second)),
        Form::Many { mut items } => {
            let last = items.pop();
            (Form::Many { items }, last)
        }
    }
}

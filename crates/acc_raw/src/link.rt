//! A node, which a chain can link to others, and where it lies.
ghost use Rattle.std.specs.Prelude.{◌≡◌, IfOk, IfErr};
ghost use Rattle.std.specs.Borrow.{sem, Lends};

use acc_base::Fault;
use std::alloc::Global;
use std::marker::Model;

/// Where a node lies. It owns nothing.
#[derive(Clone, Copy)]
pub(crate) struct Place {
    pub(crate) ptr: *const u8,
}

unsafe impl Send for Place {}

unsafe impl Sync for Place {}

/// What a node holds: its value, and where its neighbours lie.
#[derive(Drop)]
pub(crate) struct Link<T> {
    pub(crate) next: Option<Place>,
    pub(crate) prev: Option<Place>,
    pub(crate) value: T,
}

/// A value in a block of its own, which can be linked into a chain. Contracts see the value.
#[derive(Drop)]
pub struct Node<T> {
    link: Box<Link<T>>,
}

impl<T> Model for Node<T> {
    ghost Value = { T };

    ghost view = { λ n. n.link.value.value };
}

impl<T> Node<T> {
    ghost use Rattle.acc_base.specs.declared.fault.Fault.TheVariants as fault;
    ghost use Rattle.acc_raw.specs.contracts.link.Node.{the_row};

    /// A node with this value, which is in no chain.
    ///
    /// # Errors
    ///
    /// `Memory` where memory is refused, with the value.
    pub fn new(alloc: Global, value: T) -> Result<Self, (T, Fault)>
        ensures node { IfOk result (λ n. n ≡ value) }
        ensures back { IfErr result (λ e. e.0 ≡ value) }
        ensures fault { IfErr result (λ e. e.1 ≡ fault.Memory) }
    {
        let link = Link {
            next: None,
            prev: None,
            value,
        };
        match Box::new(alloc, link) {
            Ok(link) => Ok(Node { link }),
            Err(refused) => {
                let Link {
                    next: _,
                    prev: _,
                    value,
                } = refused.value;
                Err((value, Fault::Memory))
            }
        }
    }

    /// The value, and the block is freed.
    pub fn into_value(self) -> T
        ensures { result ≡ self }
    {
        let Node { link } = self;
        let Link {
            next: _,
            prev: _,
            value,
        } = Box::into_inner(link);
        value
    }

    /// The value.
    pub fn value(&self) -> &T
        ensures { result.now ≡ self.now }
    {
        &self.link.value
    }

    /// Lends the value to be changed.
    pub fn value_mut(&mut self) -> &mut T
        ensures value { result.now ≡ self.old }
        ensures* writes_back { sem 𝓛 (Lends (the_row T.row) T.row self.entry result (λ w. w)) }
    {
        &mut self.link.value
    }

    /// What the node holds, in its block.
    pub(crate) fn into_link(self) -> Box<Link<T>>
        ensures { result.value.value ≡ self }
    {
        let Node { link } = self;
        link
    }

    /// The node that holds this.
    pub(crate) fn of_link(link: Box<Link<T>>) -> Self
        ensures { result ≡ link.value.value }
    {
        Node { link }
    }
}

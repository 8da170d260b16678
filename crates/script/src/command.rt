//! What the lines of a script ask for.
ghost use Rattle.std.specs.Prelude.{◌≡◌};
ghost use Rattle.script.specs.Values.{number_of, head_of};

use crate::kind::{IntegerKind, Kind};
use bitmap::PageSize;
use byte_valued::LineHead;
use std::fmt;

/// A value of some kind of element.
#[derive(Clone, Copy)]
pub enum Value {
    Number(i128),
    Head(LineHead),
}

impl Value {
    /// The number that it is: absent of a line head.
    pub fn number(self) -> Option<i128>
        ensures { result ≡ number_of self }
    {
        match self {
            Value::Number(n) => Some(n),
            Value::Head(_) => None,
        }
    }

    /// The line head that it is: absent of a number.
    pub fn head(self) -> Option<LineHead>
        ensures { result ≡ head_of self }
    {
        match self {
            Value::Number(_) => None,
            Value::Head(head) => Some(head),
        }
    }
}

impl fmt::Display for Value {
    fn fmt<W: fmt::Write>(&self, f: &mut fmt::Formatter<W>) -> fmt::Result {
        match self {
            Value::Number(n) => write!(f, "{n}"),
            Value::Head(head) => write!(f, "{head}"),
        }
    }
}

/// What is asked for, of what a name stands for.
#[derive(Drop)]
pub enum Command {
    /// A cut of `from`, called `name`.
    Let {
        name: String,
        from: String,
        cut: Cut,
    },
    /// Both parts of a view.
    Split {
        names: (String, String),
        from: String,
        mid: usize,
    },
    /// Bytes written or read at an address of a view.
    Bytes {
        view: String,
        addr: usize,
        call: ByteCall,
    },
    /// An integer of a kind stored or loaded atomically.
    Atomic {
        kind: IntegerKind,
        view: String,
        addr: usize,
        call: AtomicCall,
    },
    /// Elements of a kind, in what a name stands for.
    Elements {
        kind: Kind,
        name: String,
        call: ElementCall,
    },
    /// The bytes of a view, or of an array of a kind, copied to a view.
    Copy {
        from: String,
        kind: Option<Kind>,
        to: String,
    },
    /// A claim opened, put through or settled.
    Claim {
        name: String,
        call: ClaimCall,
    },
    /// A parcel taken and applied to the copy, and a reference's element loaded there.
    Take {
        kind: Kind,
        name: String,
    },
}

/// A cut out of a view or an array.
#[derive(Clone, Copy)]
pub enum Cut {
    Subslice { offset: usize, count: usize },
    Offset { count: usize },
    Reference { kind: Kind, offset: usize },
    Array { kind: Kind, offset: usize, n: usize },
    Element { kind: Kind, index: usize },
}

/// A call that moves bytes.
#[derive(Drop)]
pub enum ByteCall {
    Write(Vec<u8>),
    WriteSlice(Vec<u8>),
    Read(usize),
    ReadSlice(usize),
}

/// A call that stores or loads an integer.
#[derive(Clone, Copy)]
pub enum AtomicCall {
    Store(i128),
    Load,
}

/// A call on a claim.
#[derive(Drop)]
pub enum ClaimCall {
    Open { view: String },
    Put { addr: usize, bytes: Vec<u8> },
    Settle,
}

/// A call that moves elements.
#[derive(Drop)]
pub enum ElementCall {
    WriteObj { addr: usize, value: Value },
    ReadObj { addr: usize },
    CopyFrom(Vec<Value>),
    CopyTo(usize),
    Store(Value),
    Load,
    StoreAt { index: usize, value: Value },
    LoadAt { index: usize },
    ArrayFrom(Vec<Value>),
    ArrayTo(usize),
}

/// A memory of zeros at an address, and the pages of its bitmap.
#[derive(Clone, Copy)]
pub struct Setup {
    pub line: usize,
    pub byte_size: usize,
    pub address: usize,
    pub page_size: PageSize,
    pub pages: usize,
}

/// A command, with its line.
#[derive(Drop)]
pub struct Step {
    pub number: usize,
    pub text: String,
    pub command: Command,
}

/// A script: the memory that it sets up, and its commands in order.
#[derive(Drop)]
pub struct Program {
    pub setup: Setup,
    pub steps: Vec<Step>,
}

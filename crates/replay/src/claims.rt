//! The claims that a script has open, by name.
ghost use Rattle.std.specs.Prelude.{◌<◌, IfOk, vec_len};

use crate::fault::{Fault, unnamed};
use bitmap::AtomicBitmap;
use std::alloc::{AllocError, Global};
use volatile_memory::{Claim, VolatileSlice};

/// A claim that is open. It ends by being settled.
struct OpenClaim {
    name: String,
    claim: Claim,
}

/// The claims that are open, which end by being settled.
pub(crate) struct Claims {
    heap: Global,
    claims: Vec<OpenClaim>,
}

impl Claims {
    /// No claim.
    pub(crate) fn new(heap: Global) -> Claims {
        Claims {
            heap,
            claims: Vec::new(heap),
        }
    }

    /// Opens a claim on a view.
    pub(crate) fn open(&mut self, name: &str, view: &VolatileSlice) -> Result<(), AllocError> {
        let name = String::from_str(self.heap, name)?;
        // With room for it, the claim is not lost for want of memory.
        self.claims.reserve(1)?;
        let claim = view.ptr_guard_mut();
        self.claims.push(OpenClaim { name, claim }).unwrap();
        Ok(())
    }

    /// The claim of a name.
    pub(crate) fn get(&self, name: &str) -> Result<&Claim, Fault> {
        let at = self.position(name)?;
        Ok(&self.claims[at].claim)
    }

    /// Settles the claim of a name.
    pub(crate) fn settle(&mut self, map: &mut AtomicBitmap, name: &str) -> Result<(), Fault> {
        let at = self.position(name)?;
        self.claims.swap_remove(at).settle(map);
        Ok(())
    }

    /// Settles what is still open.
    pub(crate) fn settle_all(self, map: &mut AtomicBitmap) {
        let Claims {
            heap: _,
            mut claims,
        } = self;
        // A vector's iterator may be let go, and so takes no claims.
        while let Some(claim) = claims.pop() {
            claim.settle(map);
        }
        claims.destroy_empty();
    }

    // Where the claim of a name stands.
    fn position(&self, name: &str) -> Result<usize, Fault>
        ensures { IfOk result (λ i. i < vec_len self.now.claims) }
    {
        self.claims
            .iter()
            .position(|open| open.name.as_str() == name)
            .ok_or_else(|| unnamed(self.heap, name))
    }
}

impl OpenClaim {
    fn settle(self, map: &mut AtomicBitmap) {
        let OpenClaim { name: _, claim } = self;
        claim.settle(map);
    }
}

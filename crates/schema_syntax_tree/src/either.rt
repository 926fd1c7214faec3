use cedar_data::CloneIn;
use std::alloc::{AllocError, Global};

/// One of two.
pub enum Either<A, B> {
    Left(A),
    Right(B),
}

impl<A: Drop, B: Drop> Drop for Either<A, B> {
    fn drop(self) {
        match self {
            Either::Left(_left) => {}
            Either::Right(_right) => {}
        }
    }
}

impl<A: CloneIn, B: CloneIn> CloneIn for Either<A, B> {
    fn clone_in(&self, alloc: Global) -> Result<Self, AllocError> {
        match self {
            Either::Left(left) => Ok(Either::Left(left.clone_in(alloc)?)),
            Either::Right(right) => Ok(Either::Right(right.clone_in(alloc)?)),
        }
    }
}

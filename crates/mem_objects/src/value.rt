// Values of expressions.
ghost use Rattle.std.specs.Prelude.{◌≡◌, IfOk};

use crate::Block;
use exposure::Prov;
use std::alloc::Global;
use ub_base::{Items, NoMemory};

/// The value of an expression: an integer, a pointer to an object with its provenance, the address of a function, the bytes
/// of a structure or union, the missing value of a call, or none (own).
#[derive(Drop)]
pub enum Value {
    Int(i128),
    Ptr { addr: u64, prov: Prov },
    Func(u64),
    Block(Block),
    /// The value of a call whose function gave none (6.9.1p12).
    Missing,
    Nothing,
}

/// Values in order.
pub type Values = Items<Value>;

impl Value {
    /// A copy of the value.
    pub fn copied(&self, alloc: Global) -> Result<Value, NoMemory>
        ensures { IfOk result (λ v. v ≡ self.now) }
    {
        match self {
            Value::Int(number) => Ok(Value::Int(*number)),
            Value::Ptr { addr, prov } => Ok(Value::Ptr {
                addr: *addr,
                prov: *prov,
            }),
            Value::Func(addr) => Ok(Value::Func(*addr)),
            Value::Block(block) => Ok(Value::Block(block.copied(alloc)?)),
            Value::Missing => Ok(Value::Missing),
            Value::Nothing => Ok(Value::Nothing),
        }
    }
}

// What a value is where its kind follows from its type, with what it counts as elsewhere.
ghost use Rattle.std.specs.Prelude.{◌≡◌};
ghost use Rattle.c_model.specs.Values as model;
ghost use Rattle.c_model.specs.Values.{null, pointer_value, integer_of, pointer_of, function_in, address_after};
ghost use Rattle.mem_objects.specs.Memory.{Kept};
ghost use Rattle.run_values.specs.Views.{value_in, pointer_at};
ghost use Rattle.exposure.specs.declared.prov.Prov.{Prov};
ghost use Rattle.exposure.specs.declared.prov.Prov.TheVariants.{Whole};

use exposure::Prov;
use prov_memory::Value;
use ub_base::ObjName;

/// A pointer value: an address with its provenance.
#[derive(Clone, Copy)]
pub struct Pointer {
    pub addr: u64,
    pub prov: Prov,
}

impl Pointer {
    /// The null pointer.
    pub fn null() -> Self
        ensures { pointer_at result ≡ null }
    {
        Pointer {
            addr: 0,
            prov: Prov::Empty,
        }
    }

    pub fn value(self) -> Value
        ensures { (m : Kept) → value_in m result ≡ pointer_value (pointer_at self) }
    {
        Value::Ptr {
            addr: self.addr,
            prov: self.prov,
        }
    }
}

/// The number of an integer value, 0 elsewhere.
pub fn as_integer(value: &Value) -> i128
    ensures { (m : Kept) → result ≡ integer_of (value_in m value.now) }
{
    match value {
        Value::Int(number) => *number,
        _ => 0,
    }
}

/// A pointer value, null elsewhere.
pub fn as_pointer(value: &Value) -> Pointer
    ensures { (m : Kept) → pointer_at result ≡ pointer_of (value_in m value.now) }
{
    match value {
        Value::Ptr { addr, prov } => Pointer {
            addr: *addr,
            prov: *prov,
        },
        _ => Pointer::null(),
    }
}

/// The address of a function pointer, 0 elsewhere.
pub fn as_function(value: &Value) -> u64
    ensures { (m : Kept) → result ≡ function_in (value_in m value.now) }
{
    match value {
        Value::Func(addr) => *addr,
        _ => 0,
    }
}

/// Whether a scalar value is unequal to 0 (6.5.3.3p5, 6.5.13p3); anything else is.
pub fn truth(value: &Value) -> bool
    ensures { (m : Kept) → result ≡ model.truth (value_in m value.now) }
{
    match value {
        Value::Int(number) => *number != 0,
        Value::Ptr { addr, prov: _ } | Value::Func(addr) => *addr != 0,
        _ => true,
    }
}

/// A pointer to an object that is known by its name and its address.
pub fn pointer_to(name: ObjName, addr: u64, offset: u64) -> Pointer
    ensures { pointer_at result ≡ record { address = address_after addr offset; prov = Whole name } }
{
    Pointer {
        addr: addr.saturating_add(offset),
        prov: Prov::Whole(name),
    }
}

// Composite types (6.2.7p3).
ghost use Rattle.std.specs.Prelude.{◌≡◌, IfOk, map, slice_get};
ghost use Rattle.c_types.specs.Types.{CType, Compatible, type_of, qualified_of, signature_of, params_of, known_count, composite, composites};
ghost use Rattle.c_types.specs.Types.{composite_qualified, composite_signature, composite_param};

use crate::{FuncTy, Qual, Shared, Ty, copied, copied_qual};
use std::alloc::Global;
use ub_base::{Items, NoMemory};

fn known_count(m: Option<u64>, n: Option<u64>) -> Option<u64>
    ensures { result ≡ known_count m n }
{
    match m {
        Some(count) => Some(count),
        None => n,
    }
}

/// The composite of two compatible types (6.2.7p3). Where they aren't compatible it is the first, as far as they differ (own).
#[cycle(composite)]
pub fn composite(alloc: Global, a: &Ty, b: &Ty) -> Result<Ty, NoMemory>
    ensures { IfOk result (λ t. type_of t ≡ composite (type_of a.now) (type_of b.now)) }
{
    match a {
        Ty::Pointer(x) => match b {
            Ty::Pointer(y) => {
                let target = composite_qual(alloc, x.get(), y.get())?;
                Ok(Ty::Pointer(Shared::new(alloc, target)?))
            }
            _ => copied(alloc, a),
        },
        Ty::Array(x, m) => match b {
            Ty::Array(y, n) => {
                let element = composite_qual(alloc, x.get(), y.get())?;
                Ok(Ty::Array(Shared::new(alloc, element)?, known_count(*m, *n)))
            }
            _ => copied(alloc, a),
        },
        Ty::Function(f) => match b {
            Ty::Function(g) => {
                let function = composite_function(alloc, f.get(), g.get())?;
                Ok(Ty::Function(Shared::new(alloc, function)?))
            }
            _ => copied(alloc, a),
        },
        _ => copied(alloc, a),
    }
}

#[cycle(composite)]
fn composite_qual(alloc: Global, a: &Qual, b: &Qual) -> Result<Qual, NoMemory>
    ensures { IfOk result (λ q. qualified_of q ≡ composite_qualified (qualified_of a.now) (qualified_of b.now)) }
{
    let ty = composite(alloc, &a.ty, &b.ty)?;
    Ok(Qual {
        ty,
        constant: a.constant,
    })
}

#[cycle(composite)]
fn composite_function(alloc: Global, f: &FuncTy, g: &FuncTy) -> Result<FuncTy, NoMemory>
    ensures { IfOk result (λ h. signature_of h ≡ composite_signature (signature_of f.now) (signature_of g.now)) }
{
    let result = composite(alloc, &f.result, &g.result)?;
    let params = composite_params(alloc, f.params.as_slice(), g.params.as_slice())?;
    Ok(FuncTy {
        result,
        params,
        variadic: f.variadic,
    })
}

// The composites of the parameters, pair by pair.
#[cycle(composite)]
fn composite_params(alloc: Global, a: &[Qual], b: &[Qual]) -> Result<Items<Qual>, NoMemory>
    ensures { IfOk result (λ ps. params_of (map qualified_of ps) ≡ composites (params_of (map qualified_of a.now)) (params_of (map qualified_of b.now))) }
{
    let mut params = Items::new(alloc);
    for (i, x) in a.iter().enumerate() {
        params.push(composite_param(alloc, x, b, i)?)?;
    }
    Ok(params)
}

// The composite of a parameter and the one at the same place.
#[cycle(composite)]
fn composite_param(alloc: Global, x: &Qual, b: &[Qual], i: usize) -> Result<Qual, NoMemory>
    ensures { IfOk result (λ q. qualified_of q ≡ composite_param (qualified_of x.now) (slice_get (map qualified_of b.now) i)) }
{
    match b.get(i) {
        Some(y) => composite_qual(alloc, x, y),
        None => copied_qual(alloc, x),
    }
}

/// The composite of two compatible types is compatible with both (6.2.7p3).
pub fn law_composites()
    ensures first { (a b : CType) → Compatible a b → Compatible (composite a b) a }
    ensures second { (a b : CType) → Compatible a b → Compatible (composite a b) b }
{}

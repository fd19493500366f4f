// The rules between the events of a node and of its operands.
ghost use Rattle.std.specs.Prelude.{◌≡◌, not, ◌&&◌};
ghost use Rattle.c_typed.specs.Tree.{kinds_of, is_quiet_class};
ghost use Rattle.c_typed.specs.Order.{own_rule, across, upward, is_number, goes, is_body, is_val};
ghost use Rattle.c_typed.specs.Decide.{lifts, has_kind};
ghost use Rattle.seq_order.specs.Kinds.{is_eff};

use c_typed::Class;
use ub_base::Kind;

pub fn is_body(kind: Kind) -> bool
    ensures { result ≡ is_body kind }
{
    match kind {
        Kind::Body => true,
        Kind::Val | Kind::Eff => false,
    }
}

pub fn is_val(kind: Kind) -> bool
    ensures { result ≡ is_val kind }
{
    match kind {
        Kind::Val => true,
        Kind::Eff | Kind::Body => false,
    }
}

fn is_eff(kind: Kind) -> bool
    ensures { result ≡ is_eff kind }
{
    match kind {
        Kind::Eff => true,
        Kind::Val | Kind::Body => false,
    }
}

/// Between two events of one node (6.5.2.4p2, 6.5.16.2p3, 6.5.2.2p10).
pub fn own_rule(class: Class, u: Kind, v: Kind) -> bool
    ensures { result ≡ own_rule class u v }
{
    match class {
        Class::Update => match u {
            Kind::Val => is_eff(v),
            Kind::Body => is_val(v),
            Kind::Eff => false,
        },
        Class::Object | Class::Constant | Class::Plain | Class::Store => is_body(u) && is_val(v),
        Class::Choice | Class::Comma | Class::Call | Class::Isolated => is_body(u) && is_val(v),
    }
}

/// All of operand i comes before all of operand j (6.5.13p4, 6.5.14p4, 6.5.15p4, 6.5.17p2).
pub fn across(class: Class, choice: Option<u32>, i: usize, j: usize) -> bool
    ensures { result ≡ across class choice i j }
{
    match class {
        Class::Comma => i < j,
        Class::Choice => i == 0 && is_number(choice, j),
        Class::Object | Class::Constant | Class::Plain | Class::Store => false,
        Class::Update | Class::Call | Class::Isolated => false,
    }
}

/// All of operand i comes before the event of this kind of its node.
fn upward(class: Class, choice: Option<u32>, i: usize, last: bool, kind: Kind) -> bool
    ensures { result ≡ upward class choice i last kind }
{
    match class {
        Class::Comma => is_val(kind) && !last,
        Class::Choice => is_val(kind) && i == 0 && choice.is_some(),
        Class::Call => is_body(kind),
        Class::Object | Class::Constant | Class::Plain | Class::Store => false,
        Class::Update | Class::Isolated => false,
    }
}

/// The same, also by way of the body.
pub fn lifts(class: Class, choice: Option<u32>, i: usize, last: bool, kind: Kind) -> bool
    ensures { result ≡ lifts class choice i last kind }
{
    match kind {
        Kind::Val => {
            upward(class, choice, i, last, Kind::Val) || upward(class, choice, i, last, Kind::Body)
        }
        Kind::Eff | Kind::Body => upward(class, choice, i, last, kind),
    }
}

/// The value of an operand of this class comes before the event of this kind of its node (6.5p1).
pub fn value_leads(operand: Class, kind: Kind) -> bool
    ensures { result ≡ (not (is_body kind) && not (is_quiet_class operand)) }
{
    match kind {
        Kind::Val | Kind::Eff => !operand.is_quiet(),
        Kind::Body => false,
    }
}

fn is_number(choice: Option<u32>, i: usize) -> bool
    ensures { result ≡ is_number choice i }
{
    match choice {
        Some(j) => j as usize == i,
        None => false,
    }
}

/// Operand i is evaluated.
pub fn goes(class: Class, choice: Option<u32>, i: usize) -> bool
    ensures { result ≡ goes class choice i }
{
    match class {
        Class::Choice => i == 0 || is_number(choice, i),
        Class::Object | Class::Constant | Class::Plain | Class::Store => true,
        Class::Update | Class::Comma | Class::Call | Class::Isolated => true,
    }
}

/// A node of this class has an event of this kind.
pub fn has_kind(class: Class, kind: Kind) -> bool
    ensures { result ≡ has_kind (kinds_of class) kind }
{
    match class {
        Class::Object | Class::Constant => false,
        Class::Plain | Class::Choice | Class::Comma => is_val(kind),
        Class::Store | Class::Update => is_val(kind) || is_eff(kind),
        Class::Call | Class::Isolated => is_body(kind) || is_val(kind),
    }
}

ghost use Rattle.std.specs.Prelude.{◌≡◌};
ghost use Rattle.zk_typed.specs.Operations as spec;
ghost use Rattle.zk_typed.specs.View.{type_of};

use zk_tree::{Comparing, Operator};
use zk_typed::script::{Binary, Relation, SimpleType, ValueType};

/// What an operator computes, where it isn't one of truth values.
pub fn binary_of(operator: Operator) -> Option<Binary>
    ensures { result ≡ spec.binary_of operator }
{
    match operator {
        Operator::Plus => Some(Binary::Plus),
        Operator::Minus => Some(Binary::Minus),
        Operator::Times => Some(Binary::Times),
        Operator::Over => Some(Binary::Over),
        Operator::Modulo => Some(Binary::Modulo),
        Operator::Or | Operator::And => None,
    }
}

/// What an operator compares, where it isn't `in` or `!in`.
pub fn relation_of(operator: Comparing) -> Option<Relation>
    ensures { result ≡ spec.relation_of operator }
{
    match operator {
        Comparing::Equal => Some(Relation::Equal),
        Comparing::NotEqual => Some(Relation::NotEqual),
        Comparing::Less => Some(Relation::Less),
        Comparing::LessEqual => Some(Relation::LessEqual),
        Comparing::Greater => Some(Relation::Greater),
        Comparing::GreaterEqual => Some(Relation::GreaterEqual),
        Comparing::In | Comparing::NotIn => None,
    }
}

/// Whether the values of a type have an order.
pub fn is_ordered(one: SimpleType) -> bool
    ensures { result ≡ spec.is_ordered one }
{
    match one {
        SimpleType::Bool | SimpleType::Subnet | SimpleType::Enum(_) => false,
        SimpleType::Count
        | SimpleType::Int
        | SimpleType::String
        | SimpleType::Time
        | SimpleType::Interval
        | SimpleType::Addr
        | SimpleType::Port => true,
    }
}

/// Whether the values of a type can be compared so: equality is on all types without parts, and order on
/// some.
pub fn relates(relation: Relation, one: &ValueType) -> bool
    ensures { result ≡ spec.relates relation (type_of one.now) }
{
    match one {
        ValueType::Simple(simple) => match relation {
            Relation::Equal | Relation::NotEqual => true,
            Relation::Less | Relation::LessEqual | Relation::Greater | Relation::GreaterEqual =>
                is_ordered(*simple),
        },
        ValueType::Record(_)
        | ValueType::Table { .. }
        | ValueType::Set { .. }
        | ValueType::Vector { .. } => false,
    }
}

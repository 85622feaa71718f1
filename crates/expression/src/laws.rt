//! Laws of tables and layouts. Each function does nothing: its clause is the law.
ghost use Rattle.expression.specs.Layouts.{LayoutsStand, OneLayout};
ghost use Rattle.expression.specs.Verdicts.{OneExpression, OneVerdict};

/// A part's end determines where it begins and what it denotes, so a table denotes at most one expression.
#[tactic(auto, using(crate::proofs::Parts::one_expression))]
pub fn one_expression()
    ensures { OneExpression }
{}

/// Every table is good or has one fault, and never both.
pub fn one_verdict()
    ensures { OneVerdict }
{}

/// Every layout denotes an expression, each of its nodes a part of it, and the fields of the nodes tell of these.
pub fn layouts_stand()
    ensures { LayoutsStand }
{}

/// A layout's table determines its nodes.
#[tactic(auto, using(crate::proofs::Meaning::same_nodes))]
pub fn one_layout()
    ensures { OneLayout }
{}

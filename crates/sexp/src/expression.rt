/// An S-expression: a number, or the expressions of a list in order.
#[derive(Debug, Drop)]
pub enum SExp {
    Atom(u32),
    List(Vec<SExp>),
}

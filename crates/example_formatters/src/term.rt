/// A number, the negation of a term, or the sum or the product of two.
#[derive(Drop)]
pub enum Term {
    Number(u32),
    Negate(Box<Term>),
    Sum(Box<Term>, Box<Term>),
    Product(Box<Term>, Box<Term>),
}

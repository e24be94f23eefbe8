// What is wrong with a word that names nothing. The program says which words there are.
#[derive(Clone, Copy, PartialEq, Eq, Debug)]
pub struct Unnamed;

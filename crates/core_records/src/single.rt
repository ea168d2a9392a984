/// An entry of a table whose entries are all of one kind.
#[derive(Clone, Copy)]
pub struct Single<T> {
    pub item: T,
}

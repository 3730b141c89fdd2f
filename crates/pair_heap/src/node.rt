// A node in its slot: the first of its children's trees, the tree that follows it, and the item.
pub(crate) struct Node<T> {
    pub(crate) child: *mut Node<T>,
    pub(crate) next: *mut Node<T>,
    pub(crate) item: T,
}

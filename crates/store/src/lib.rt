// The sizes and the parts of the lent lists (document 01, 'The store'). A list's parts stand in the order in which 01 names them; a vector, a
// centroid or a centre is the part of the floats that starts at its number times the dimension.
#![tactic(auto)]

ghost use Rattle.std.specs.Prelude.{◌≡◌};
ghost use Rattle.store.specs.Lent.{stored, lengths_of, store_short, lists_short};
ghost use Rattle.store.specs.Store.{Limits, centroids_at, centres_at, floats_size, owners_at, order_at, nodes_at, links_at, entry_order_at, starts_at, lengths_at, live_at, numbers_size, filters_at, hashes_size, marks_at, hits_at, work_size};

// What fixes the sizes of a store: the dimension D, the branching factor B, and the capacities V, E and M and that of label text.
#[derive(Clone, Copy)]
pub struct Shape {
    pub dimension: usize,
    pub branching: usize,
    pub vectors: usize,
    pub entries: usize,
    pub nodes: usize,
    pub text: usize,
}

// How many vectors, label entries, nodes and bytes of label text a store holds.
#[derive(Clone, Copy)]
pub struct Counts {
    pub vectors: usize,
    pub entries: usize,
    pub nodes: usize,
    pub bytes: usize,
}

// The lengths of the lent lists of a store.
#[derive(Clone, Copy)]
pub struct Lengths {
    pub floats: usize,
    pub numbers: usize,
    pub hashes: usize,
    pub text: usize,
}

// The lists of a store, lent to be read.
#[derive(Clone, Copy)]
pub struct Lists<'a> {
    pub floats: &'a [f32],
    pub numbers: &'a [u32],
    pub hashes: &'a [u64],
    pub text: &'a [u8],
}

impl<'a> Lists<'a> {
    pub fn lengths(self) -> Lengths
        ensures { result ≡ lengths_of (stored self.entry) }
    {
        Lengths {
            floats: self.floats.len(),
            numbers: self.numbers.len(),
            hashes: self.hashes.len(),
            text: self.text.len(),
        }
    }
}

impl Shape {
    pub fn centroids_at(self) -> usize
        requires { Limits self }
        ensures { result ≡ centroids_at self }
    {
        self.dimension * self.vectors
    }

    pub fn centres_at(self) -> usize
        requires { Limits self }
        ensures { result ≡ centres_at self }
    {
        self.dimension * (self.vectors + self.nodes)
    }

    pub fn floats_size(self) -> usize
        requires { Limits self }
        ensures { result ≡ floats_size self }
    {
        self.dimension * (self.vectors + self.nodes + self.branching)
    }

    pub fn owners_at(self) -> usize
        requires { Limits self }
        ensures { result ≡ owners_at self }
    {
        self.vectors
    }

    pub fn order_at(self) -> usize
        requires { Limits self }
        ensures { result ≡ order_at self }
    {
        self.vectors + self.entries
    }

    pub fn nodes_at(self) -> usize
        requires { Limits self }
        ensures { result ≡ nodes_at self }
    {
        2 * self.vectors + self.entries
    }

    pub fn links_at(self) -> usize
        requires { Limits self }
        ensures { result ≡ links_at self }
    {
        2 * self.vectors + self.entries + 6 * self.nodes
    }

    pub fn entry_order_at(self) -> usize
        requires { Limits self }
        ensures { result ≡ entry_order_at self }
    {
        2 * self.vectors + self.entries + 7 * self.nodes
    }

    pub fn starts_at(self) -> usize
        requires { Limits self }
        ensures { result ≡ starts_at self }
    {
        2 * self.vectors + 2 * self.entries + 7 * self.nodes
    }

    pub fn lengths_at(self) -> usize
        requires { Limits self }
        ensures { result ≡ lengths_at self }
    {
        2 * self.vectors + 3 * self.entries + 7 * self.nodes
    }

    pub fn live_at(self) -> usize
        requires { Limits self }
        ensures { result ≡ live_at self }
    {
        2 * self.vectors + 4 * self.entries + 7 * self.nodes
    }

    pub fn numbers_size(self) -> usize
        requires { Limits self }
        ensures { result ≡ numbers_size self }
    {
        3 * self.vectors + 4 * self.entries + 7 * self.nodes
    }

    pub fn filters_at(self) -> usize
        requires { Limits self }
        ensures { result ≡ filters_at self }
    {
        self.entries
    }

    pub fn hashes_size(self) -> usize
        requires { Limits self }
        ensures { result ≡ hashes_size self }
    {
        self.entries + 4 * self.nodes
    }

    pub fn marks_at(self) -> usize
        requires { Limits self }
        ensures { result ≡ marks_at self }
    {
        2 * self.nodes
    }

    pub fn hits_at(self) -> usize
        requires { Limits self }
        ensures { result ≡ hits_at self }
    {
        3 * self.nodes
    }

    pub fn work_size(self) -> usize
        requires { Limits self }
        ensures { result ≡ work_size self }
    {
        3 * self.nodes + 3 * self.vectors.max(self.entries)
    }

    // Whether a list of the store is shorter than its size.
    pub fn store_short(self, lent: Lengths) -> bool
        requires { Limits self }
        ensures { result ≡ store_short self lent }
    {
        let floats = self.floats_size();
        let numbers = self.numbers_size();
        let hashes = self.hashes_size();
        !((floats <= lent.floats)
            & ((numbers <= lent.numbers) & ((hashes <= lent.hashes) & (self.text <= lent.text))))
    }

    // Whether a list of the store, or the work list, is shorter than its size.
    pub fn lists_short(self, lent: Lengths, work: usize) -> bool
        requires { Limits self }
        ensures { result ≡ lists_short self lent work }
    {
        self.store_short(lent) | !(self.work_size() <= work)
    }
}

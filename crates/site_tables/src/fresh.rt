// What a statement makes.
ghost use Rattle.std.specs.Prelude.{◌≡◌, None};
ghost use Rattle.site_tables.specs.Making.{class_in, count_of, IsNothing};

/// Arrays, each of which holds the next, and after them an object of a class, where there is one.
#[derive(Clone, Copy)]
pub struct Fresh<'a> {
    /// How many arrays.
    pub dims: u8,
    pub class: Option<&'a [u8]>,
}

impl<'a> Fresh<'a> {
    /// Nothing.
    pub fn nothing() -> Fresh<'a>
        ensures { IsNothing result }
    {
        Fresh {
            dims: 0,
            class: None,
        }
    }

    /// So many arrays, and no object.
    pub fn arrays(dims: u8) -> Fresh<'a>
        ensures dims { result.dims ≡ dims }
        ensures class { class_in result ≡ None }
    {
        Fresh { dims, class: None }
    }

    /// How many arrays and objects.
    pub fn count(&self) -> u64
        ensures { result ≡ count_of self.now }
    {
        match self.class {
            Some(_) => self.dims as u64 + 1,
            None => self.dims as u64,
        }
    }
}

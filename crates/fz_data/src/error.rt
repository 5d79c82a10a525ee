//! Why the text of a model isn't loaded.

ghost use Rattle.std.specs.Prelude.{◌≡◌};
ghost use Rattle.fz_data.specs.declared.error.LoadError.TheVariants.{Names, Text};

use fz_store::ModelError;
use fz_tree::SyntaxError;

/// Why the text of a model isn't loaded: it is a text of no tree, or the tree's names have a fault.
#[derive(Clone, Copy)]
pub enum LoadError {
    Text(SyntaxError),
    Names(ModelError),
}

impl From<SyntaxError> for LoadError {
    ghost from_gives = { λ error result. result ≡ Text error };

    fn from(error: SyntaxError) -> LoadError {
        LoadError::Text(error)
    }
}

impl From<ModelError> for LoadError {
    ghost from_gives = { λ error result. result ≡ Names error };

    fn from(error: ModelError) -> LoadError {
        LoadError::Names(error)
    }
}

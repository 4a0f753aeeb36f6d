//! What all services share.
ghost use Rattle.std.specs.Prelude.{◌≡◌, IfErr, IfOk, Some, None};

use crate::path::{Path, PathError};

/// Where the files of all services and nodes lie.
#[derive(Clone, Copy, Debug, PartialEq, Eq)]
pub struct Global {
    root_path: Path,
}

impl Global {
    ghost use Rattle.iox_configs.specs.Paths.{path_refusal, service_dir_of, node_dir_of};

    /// The root directory of all files.
    pub fn root_path(&self) -> &Path
        ensures { result.now ≡ self.now.root_path }
    {
        &self.root_path
    }

    /// Sets the root directory of all files.
    pub fn set_root_path(&mut self, value: &Path)
        ensures { self.new.root_path ≡ value.now }
    {
        self.root_path = *value;
    }

    /// Where the services lie; refused where that is too long for a path.
    pub fn service_dir(&self) -> Result<Path, PathError>
        ensures made { IfOk result (λ path. path ≡ service_dir_of self.now.root_path) }
        ensures allowed { IfOk result (λ _.
            path_refusal (service_dir_of self.now.root_path) ≡ None) }
        ensures refused { IfErr result (λ e.
            path_refusal (service_dir_of self.now.root_path) ≡ Some e) }
    {
        self.root_path.followed_by("/services")
    }

    /// Where the nodes lie; refused where that is too long for a path.
    pub fn node_dir(&self) -> Result<Path, PathError>
        ensures made { IfOk result (λ path. path ≡ node_dir_of self.now.root_path) }
        ensures allowed { IfOk result (λ _. path_refusal (node_dir_of self.now.root_path) ≡ None) }
        ensures refused { IfErr result (λ e.
            path_refusal (node_dir_of self.now.root_path) ≡ Some e) }
    {
        self.root_path.followed_by("/nodes")
    }
}

impl Default for Global {
    ghost use Rattle.iox_configs.specs.Paths.{first_root};

    ghost is_default = { λ it. it.root_path ≡ first_root };

    fn default() -> Global {
        match Path::new("/tmp/iceoryx2") {
            Ok(root_path) => Global { root_path },
            Err(_) => unreachable!(),
        }
    }
}

//! What holds of all configurations: the function here has no work, and its contract is the law.

ghost use Rattle.std.specs.Prelude.{◌≡◌, [], Ok};
ghost use Rattle.pcm_config.specs.Configs.{config_read, usual_config};

/// An empty text is the usual configuration.
pub fn an_empty_text_is_the_usual()
    ensures { config_read [] ≡ Ok usual_config }
{}

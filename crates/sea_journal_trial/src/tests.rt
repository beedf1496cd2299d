mod trials;
